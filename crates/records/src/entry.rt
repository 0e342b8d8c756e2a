// What a word of a record stands for.
ghost use Rattle.std.specs.Prelude.{◌≡◌, ℕ, ◌-◌, ◌^◌, min, from_bits};
ghost use Rattle.std.specs.Float.{binary64};
ghost use Rattle.std.specs.Int.{w64, cast_unsigned};
ghost use Rattle.records.specs.Words as spec;

pub trait Entry: Copy + Default {
    ghost of_word: { ℕ → Self };

    ghost to_word: { Self → ℕ };

    // The entry that a word stands for. A word past the type's largest number gives that number, if the impl does not say otherwise.
    fn of(word: u64) -> Self
        ensures { result ≡ of_word word };

    // The word that stands for the entry.
    fn word(self) -> u64
        ensures { result ≡ to_word self };
}

// What stands in every entry of a list before a call that it is lent to.
pub trait Lent: Entry {
    ghost BEFORE: { Self };

    const BEFORE: Self;
}

impl Entry for u8 {
    ghost of_word = { λ n. min n 255 };

    ghost to_word = { λ x. x };

    fn of(word: u64) -> Self {
        u8::try_from(word).unwrap_or(u8::MAX)
    }

    fn word(self) -> u64 {
        u64::from(self)
    }
}

impl Lent for u8 {
    ghost BEFORE = { 165 };

    const BEFORE: Self = 165;
}

impl Entry for u32 {
    ghost of_word = { λ n. min n (2 ^ 32 - 1) };

    ghost to_word = { λ x. x };

    fn of(word: u64) -> Self {
        u32::try_from(word).unwrap_or(u32::MAX)
    }

    fn word(self) -> u64 {
        u64::from(self)
    }
}

impl Lent for u32 {
    ghost BEFORE = { 2779096485 };

    const BEFORE: Self = 2779096485;
}

impl Entry for u64 {
    ghost of_word = { λ n. n };

    ghost to_word = { λ x. x };

    fn of(word: u64) -> Self {
        word
    }

    fn word(self) -> u64 {
        self
    }
}

impl Entry for usize {
    ghost of_word = { λ n. n };

    ghost to_word = { λ x. x };

    fn of(word: u64) -> Self {
        word as usize
    }

    fn word(self) -> u64 {
        self as u64
    }
}

// By its two's complement; a word that stands for no i16 gives 0.
impl Entry for i16 {
    ghost of_word = { spec.short_of };

    ghost to_word = { cast_unsigned w64 };

    #[tactic(auto, unfolding(crate::specs::Words::short_of))]
    fn of(word: u64) -> Self {
        i16::try_from(word.cast_signed()).unwrap_or(0)
    }

    fn word(self) -> u64 {
        i64::from(self).cast_unsigned()
    }
}

// By its bit pattern; every NaN has the same word.
impl Entry for f64 {
    ghost of_word = { from_bits binary64 };

    ghost to_word = { spec.bits_of };

    fn of(word: u64) -> Self {
        binary64::from_bits(word)
    }

    #[tactic(auto, unfolding(crate::specs::Words::bits_of))]
    fn word(self) -> u64 {
        if self.is_nan() {
            return 0x7ff8_0000_0000_0000;
        }
        self.to_bits()
    }
}

impl Lent for f64 {
    ghost BEFORE = { from_bits binary64 0xc064a00000000000 };

    const BEFORE: Self = -165.0;
}
