// Blocks of one row. They are macros, since the check does not compute a call on a list that a function gives back.

// A map of one row: from a name of one byte to one of two, or of one where the second is 0.
#[macro_export]
macro_rules! map_of {
    ($name:expr, $first:expr, $second:expr) => {{
        let mut block = [0; 66];
        block[0] = 1;
        block[2] = $name;
        block[34] = $first;
        block[35] = $second;
        block
    }};
}

// A stack of one layer with a name of one byte, the flags that say which figures it has, and the two highest bytes of its height.
#[macro_export]
macro_rules! stack_of {
    ($name:expr, $flags:expr, $low:expr, $high:expr) => {{
        let mut block = [0; 51];
        block[0] = 1;
        block[2] = $name;
        block[34] = $flags;
        block[41] = $low;
        block[42] = $high;
        block
    }};
}
