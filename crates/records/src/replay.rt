// Replaying the records of the input on a program's calls.
ghost use Rattle.std.specs.Prelude.{◌≡◌, ℕ, ◌*◌, ◌^◌, ◌<◌, ◌≤◌, length, take, slice_range, IfOk};
ghost use Rattle.std.specs.Io.KnownBytes.{Consumes, IsAtEnd};

use crate::record::Record;
use crate::tally::Tally;
use std::fmt::Display;
use std::io;
use std::io::Read;

// The N calls of a program, each shown by its name. A record has at most M bytes.
pub trait Call<const N: usize, const M: usize>: Copy + Display + 'static {
    ghost HEAD: { ℕ };

    // How many bytes tell a record's size.
    const HEAD: usize;

    // The number that stands for the first call in word 0. The next numbers stand for the others, in the order of `all`.
    const FIRST: u64;

    // The calls in the order of the report. Each impl names them: Rust has no list of an enum's cases.
    fn all() -> &'static [Self]
        ensures { length result.now ≡ N };

    // How many bytes a record that begins like this one has.
    fn size_of(record: Record<'_>) -> usize
        ensures low { HEAD ≤ result }
        ensures high { result ≤ M };

    // Whether the numbers and the lists' lengths of a record of the call are ones that it may have.
    fn is_sound(self, record: Record<'_>) -> bool;

    // Whether the call answers what the record says.
    fn is_answered(self, record: Record<'_>) -> bool;
}

// Reads on from place `from` to place `to` of the buffer, which must have both, and gives where the input ended.
// The bytes from `from` to that end are then the input's next ones. Those before `from` are kept, also where a read fails.
pub fn read_on<R: Read>(
    input: &mut R,
    buffer: &mut [u8],
    from: usize,
    to: usize,
) -> io::Result<usize>
    requires { (from ≤ to) × (to ≤ length buffer.old) }
    ensures within { IfOk result (λ end. (from ≤ end) × (end ≤ to)) }
    ensures bytes { IfOk result (λ end. Consumes (R.remaining input.old) (R.remaining input.new) (slice_range buffer.new from end)) }
    ensures ended { IfOk result (λ end. end < to → IsAtEnd (R.remaining input.new)) }
    ensures before { take from buffer.new ≡ take from buffer.old }
{
    let mut at = from;
    // A while: a read answers how many bytes it read, and std's `read_exact` says nothing of the bytes before an early end.
    while at < to {
        let more = input.read(&mut buffer[at..to])?;
        if more == 0 {
            break;
        }
        at += more;
    }
    Ok(at)
}

// Reads the next record of the input, and gives how many bytes of it there were.
fn read_record<const N: usize, const M: usize, C: Call<N, M>>(
    input: &mut impl Read,
    buffer: &mut [u8; M],
) -> io::Result<usize>
    requires { C.HEAD ≤ M }
    ensures { IfOk result (λ n. n ≤ M) }
{
    let n = read_on(input, buffer, 0, C::HEAD)?;
    if n < C::HEAD {
        return Ok(n);
    }
    let size = C::size_of(Record(buffer));
    read_on(input, buffer, n, size)
}

// Replays a record, counts it in the tally of its call, and gives whether the record is sound.
fn replay_record<const N: usize, const M: usize, C: Call<N, M>>(
    record: Record<'_>,
    tallies: &mut [Tally; N],
) -> bool {
    let Some(i) = record.word(0).checked_sub(C::FIRST) else {
        return false;
    };
    let Some((call, tally)) = C::all().get(i as usize).zip(tallies.get_mut(i as usize)) else {
        return false;
    };
    if !call.is_sound(record) || record.0.len() != C::size_of(record) {
        return false;
    }
    tally.count(call.is_answered(record));
    true
}

// Replays the records of the input up to the first damaged one, each counted in the tally of its call, and gives the tally of the damaged one.
fn replay<const N: usize, const M: usize, C: Call<N, M>>(
    input: &mut impl Read,
    buffer: &mut [u8; M],
    tallies: &mut [Tally; N],
) -> io::Result<Tally>
    requires { C.HEAD ≤ M }
{
    let mut damaged = Tally::NONE;
    for _ in 0..u64::MAX {
        let n = read_record::<N, M, C>(input, buffer)?;
        if n == 0 {
            break;
        }
        if !replay_record::<N, M, C>(Record(&buffer[..n]), tallies) {
            damaged.count(false);
            break;
        }
    }
    Ok(damaged)
}

// Replays the records of the input, and prints of each call how many records there are and how many it answers otherwise.
pub fn run<const N: usize, const M: usize, C: Call<N, M>>(
    rt: &impl Print,
    input: &mut impl Read,
) -> io::Result<()>
    requires head { C.HEAD ≤ M }
    requires buffer { M < 2 ^ 63 }
    requires tallies { N * 16 < 2 ^ 63 }
{
    let mut buffer = [0; M];
    let mut tallies = [Tally::NONE; N];
    let damaged = replay::<N, M, C>(input, &mut buffer, &mut tallies)?;
    let mut all = damaged;
    for (call, tally) in C::all().iter().zip(tallies.iter()) {
        println!(rt; "{call} {tally}")?;
        all = all.plus(*tally);
    }
    if damaged.is_any() {
        println!(rt; "damaged {damaged}")?;
    }
    println!(rt; "{all}")
}
