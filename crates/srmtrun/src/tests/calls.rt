use self::Want::{
    Alone, Both, BothFailed, Form, Help, ReadFault, TooLong, Usage, Version, WriteFault,
};

/// What a call answers.
#[derive(Clone, Copy, Debug)]
pub enum Want {
    /// An exit on one thread, with the status of the call.
    Alone,
    /// An exit of both sides, with the status of the call: the steps of the leading and of the
    /// trailing side, the words and the acknowledgements.
    Both([u64; 4]),
    /// An event of both sides that failed, with the same counts.
    BothFailed([u64; 4]),
    Help,
    Version,
    Usage,
    ReadFault,
    TooLong,
    Form,
    WriteFault,
}

const SINGLE: [&str; 2] = ["a.c", "--single"];

const ALTERNATE: [&str; 2] = ["a.c", "--alternate"];

const ONE: &[u8] = b"int main(void) {\nputchar(65);\nreturn 0;\n}";

const TWO: &[u8] = b"int main(void) {\nputchar(65);\nputchar(66);\nreturn 0;\n}";

const SEVEN: &[u8] = b"int main(void){return 7;}";

const USAGE: &str = "srmtrun: usage: srmtrun PROGRAM [options]\n";

pub const FORM: &str = "srmtrun: refused: form\n";

const READING: &str = "srmtrun: fault: reading\n";

pub const TOO_LONG: &str = "srmtrun: fault: too long\n";

const OUTPUT: &str = "srmtrun: fault: output\n";

const ABOUT: &str = "srmtrun of Gazqelum\nproved with rattle-kit-13f logic dac8208d650f15bf\n";

/// The words, the file `a.c`, the numbers of the calls that fail (of the files, of the outlet and of
/// the notes, or 0), and the answer, its status, the bytes that are written, and the notes.
type Call = (
    &'static [&'static str],
    &'static [u8],
    [u64; 3],
    Want,
    u8,
    &'static [u8],
    &'static str,
);

pub static CALLS: [Call; 54] = [
    // Sources that run, on one thread.
    (
        &SINGLE,
        b"int main(void){return 0;}",
        [0, 0, 0],
        Alone,
        0,
        b"",
        "",
    ),
    (
        &SINGLE,
        b"int main(void) { putchar(321); return 300; }",
        [0, 0, 0],
        Alone,
        44,
        b"A",
        "",
    ),
    (
        &SINGLE,
        b"int main(void){putchar(66);putchar(65);return 10;}",
        [0, 0, 0],
        Alone,
        10,
        b"BA",
        "",
    ),
    (
        &SINGLE,
        b" int\tmain\r\n( void )\n{ putchar\n( 0 ) ;return\n2147483647\t; }\r",
        [0, 0, 0],
        Alone,
        255,
        b"\0",
        "",
    ),
    (
        &SINGLE,
        b"int main(void){putchar(2147483647);return 1;}",
        [0, 0, 0],
        Alone,
        1,
        b"\xff",
        "",
    ),
    // By both sides in turn. The counts are those of the two versions, taken by hand.
    (
        &ALTERNATE,
        b"int main(void){return 0;}",
        [0, 0, 0],
        Both([4, 4, 1, 1]),
        0,
        b"",
        "",
    ),
    (&ALTERNATE, ONE, [0, 0, 0], Both([9, 8, 2, 2]), 0, b"A", ""),
    (
        &ALTERNATE,
        TWO,
        [0, 0, 0],
        Both([14, 12, 3, 3]),
        0,
        b"AB",
        "",
    ),
    // Sources that are refused.
    (&SINGLE, b"", [0, 0, 0], Form, 127, b"", FORM),
    (&SINGLE, b"int", [0, 0, 0], Form, 127, b"", FORM),
    (
        &SINGLE,
        b"intmain(void){return 0;}",
        [0, 0, 0],
        Form,
        127,
        b"",
        FORM,
    ),
    (
        &SINGLE,
        b"int\x0bmain(void){return 0;}",
        [0, 0, 0],
        Form,
        127,
        b"",
        FORM,
    ),
    (
        &SINGLE,
        b"int main(){return 0;}",
        [0, 0, 0],
        Form,
        127,
        b"",
        FORM,
    ),
    (
        &SINGLE,
        b"int main(void){}",
        [0, 0, 0],
        Form,
        127,
        b"",
        FORM,
    ),
    (
        &SINGLE,
        b"int main(void){return;}",
        [0, 0, 0],
        Form,
        127,
        b"",
        FORM,
    ),
    (
        &SINGLE,
        b"int main(void){return0;}",
        [0, 0, 0],
        Form,
        127,
        b"",
        FORM,
    ),
    (
        &SINGLE,
        b"int main(void){return 0}",
        [0, 0, 0],
        Form,
        127,
        b"",
        FORM,
    ),
    (
        &SINGLE,
        b"int main(void){return 0;};",
        [0, 0, 0],
        Form,
        127,
        b"",
        FORM,
    ),
    (
        &SINGLE,
        b"int main(void){return 00;}",
        [0, 0, 0],
        Form,
        127,
        b"",
        FORM,
    ),
    (
        &SINGLE,
        b"int main(void){return 2147483648;}",
        [0, 0, 0],
        Form,
        127,
        b"",
        FORM,
    ),
    (
        &SINGLE,
        b"int main(void){return 99999999999;}",
        [0, 0, 0],
        Form,
        127,
        b"",
        FORM,
    ),
    (
        &SINGLE,
        b"int main(void){putchar(065);return 0;}",
        [0, 0, 0],
        Form,
        127,
        b"",
        FORM,
    ),
    (
        &SINGLE,
        b"int main(void){putchar(-1);return 0;}",
        [0, 0, 0],
        Form,
        127,
        b"",
        FORM,
    ),
    (
        &SINGLE,
        b"int main(void){return 0;putchar(65);}",
        [0, 0, 0],
        Form,
        127,
        b"",
        FORM,
    ),
    // Words.
    (&["--single", "a.c"], SEVEN, [0, 0, 0], Alone, 7, b"", ""),
    (
        &["--alternate", "a.c"],
        SEVEN,
        [0, 0, 0],
        Both([4, 4, 1, 1]),
        7,
        b"",
        "",
    ),
    (&["--version"], SEVEN, [0, 0, 0], Version, 0, b"", ABOUT),
    (&[], SEVEN, [0, 0, 0], Usage, 126, b"", USAGE),
    (&["a.c"], SEVEN, [0, 0, 0], Usage, 126, b"", USAGE),
    (
        &["--alternate", "--single"],
        SEVEN,
        [0, 0, 0],
        Usage,
        126,
        b"",
        USAGE,
    ),
    (
        &["a.c", "--double"],
        SEVEN,
        [0, 0, 0],
        Usage,
        126,
        b"",
        USAGE,
    ),
    (
        &["--single", "--single"],
        SEVEN,
        [0, 0, 0],
        Usage,
        126,
        b"",
        USAGE,
    ),
    (
        &["a.srm", "--single"],
        SEVEN,
        [0, 0, 0],
        Usage,
        126,
        b"",
        USAGE,
    ),
    (
        &["a.c", "--single", "--single"],
        SEVEN,
        [0, 0, 0],
        Usage,
        126,
        b"",
        USAGE,
    ),
    (
        &["a.c", "--single", "--check"],
        SEVEN,
        [0, 0, 0],
        Usage,
        126,
        b"",
        USAGE,
    ),
    (
        &["--help", "--help"],
        SEVEN,
        [0, 0, 0],
        Usage,
        126,
        b"",
        USAGE,
    ),
    (&["--help", "a.c"], SEVEN, [0, 0, 0], Usage, 126, b"", USAGE),
    (&["a.c", "--help"], SEVEN, [0, 0, 0], Usage, 126, b"", USAGE),
    (
        &["--version", "--single"],
        SEVEN,
        [0, 0, 0],
        Usage,
        126,
        b"",
        USAGE,
    ),
    (&["-h"], SEVEN, [0, 0, 0], Usage, 126, b"", USAGE),
    // Calls of the files and of the outlet that fail.
    (&SINGLE, ONE, [1, 0, 0], ReadFault, 124, b"", READING),
    (
        &["b.c", "--single"],
        ONE,
        [0, 0, 0],
        ReadFault,
        124,
        b"",
        READING,
    ),
    (&SINGLE, ONE, [0, 1, 0], WriteFault, 124, b"", OUTPUT),
    (&SINGLE, ONE, [0, 2, 0], WriteFault, 124, b"A", OUTPUT),
    (
        &ALTERNATE,
        TWO,
        [0, 2, 0],
        BothFailed([9, 10, 2, 2]),
        124,
        b"A",
        OUTPUT,
    ),
    // Notes that fail: the answer stands, and a first part of its lines is written.
    (&SINGLE, ONE, [1, 0, 1], ReadFault, 124, b"", ""),
    (
        &SINGLE,
        ONE,
        [1, 0, 2],
        ReadFault,
        124,
        b"",
        "srmtrun: fault: reading",
    ),
    (&SINGLE, b"", [0, 0, 1], Form, 124, b"", ""),
    (
        &SINGLE,
        b"",
        [0, 0, 2],
        Form,
        124,
        b"",
        "srmtrun: refused: ",
    ),
    (
        &SINGLE,
        b"",
        [0, 0, 3],
        Form,
        124,
        b"",
        "srmtrun: refused: form",
    ),
    (&SINGLE, ONE, [0, 2, 1], WriteFault, 124, b"A", ""),
    (&["--help"], b"", [0, 0, 1], Help, 124, b"", ""),
    (
        &["--version"],
        b"",
        [0, 0, 3],
        Version,
        124,
        b"",
        "srmtrun of Gazqelum\n",
    ),
    (
        &[],
        b"",
        [0, 0, 2],
        Usage,
        124,
        b"",
        "srmtrun: usage: srmtrun PROGRAM [options]",
    ),
];
