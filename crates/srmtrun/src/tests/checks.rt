use super::owned;
use crate::still::srmtrun_still;
use answers::{CompileRefusal, RunAnswer, Which};
use c_lexer::{LexRefusal, TokenKind};
use c_parser::ParseRefusal;
use srmt_outside::{MemFiles, MemOutlet, MemSink};
use std::alloc::{AllocError, Global};
use std::test::Fail;
use typing_rules::TypeRefusal;

// The words, the main file `a.c` and the binary file `b.c`, the answer and its line. The input `in` is there too, and no
// other file.
type Row = (
    &'static [&'static str],
    &'static [u8],
    &'static [u8],
    RunAnswer,
    &'static str,
);

const USAGE: &str = "srmtrun: usage: srmtrun PROGRAM [options]\n";

const READING: &str = "srmtrun: fault: reading\n";

const ALONE: &[&str] = &["a.c", "--check"];

const BOTH: &[&str] = &["a.c", "--check", "--binary", "b.c"];

const EMPTY: &[u8] = b"int main(void){return 0;}";

const EACH: &[u8] =
    b"int each(int n, int (*f)(int));\nint show(int i) { return i; }\nint main(void) { return each(3, show); }";

const fn lexed(file: Which, cause: LexRefusal) -> RunAnswer {
    RunAnswer::Refused(CompileRefusal::Lex(file, cause))
}

const fn parsed(file: Which, cause: ParseRefusal) -> RunAnswer {
    RunAnswer::Refused(CompileRefusal::Parse(file, cause))
}

const fn typed(cause: TypeRefusal) -> RunAnswer {
    RunAnswer::Refused(CompileRefusal::Typing(cause))
}

// Whether a call has its answer and its line, and writes no event.
fn answers(alloc: Global, row: &Row) -> Result<bool, AllocError> {
    let (words, main, binary, answer, text) = row;
    let mut files = MemFiles::new(alloc);
    files.give(alloc, "a.c", main)?;
    files.give(alloc, "b.c", binary)?;
    files.give(alloc, "in", b"7")?;
    let mut outlet = MemOutlet::with_room(alloc, 10)?;
    let mut notes = MemSink::with_room(alloc, 100)?;
    let words = owned(alloc, words)?;
    let finished = srmtrun_still(alloc, &words, &mut files, &mut outlet, &mut notes);
    let silent = outlet.events().is_empty() && finished.noted;
    Ok(silent && finished.answer == *answer && notes.bytes() == text.as_bytes())
}

// Whether each call has.
fn all_answer(alloc: Global, rows: &[Row]) -> Result<bool, AllocError> {
    for row in rows {
        if !answers(alloc, row)? {
            return Ok(false);
        }
    }
    Ok(true)
}

// A layer goes over the main file and then over the binary file before the next one begins.
#[test]
fn tokens_and_syntax_are_checked(rt: HostRuntime) -> Result<(), Fail> {
    let rows: [Row; 9] = [
        (
            ALONE,
            b"int main(void){return 2147483648;}",
            b"",
            lexed(Which::Main, LexRefusal::LiteralTooWide(22)),
            "srmtrun: refused: lex main LiteralTooWide at 22\n",
        ),
        (
            ALONE,
            b"#define N 3",
            b"",
            lexed(Which::Main, LexRefusal::Directive(0)),
            "srmtrun: refused: lex main Directive at 0\n",
        ),
        (
            ALONE,
            b"int main(void){return 0}",
            b"",
            parsed(Which::Main, ParseRefusal::Expected(23)),
            "srmtrun: refused: parse main Expected at 23\n",
        ),
        (
            ALONE,
            b"int main(void){float x;}",
            b"",
            parsed(
                Which::Main,
                ParseRefusal::LeftOut(15, TokenKind::Keyword(12)),
            ),
            "srmtrun: refused: parse main LeftOut at 15\n",
        ),
        (
            BOTH,
            b"@",
            b" @",
            lexed(Which::Main, LexRefusal::BadByte(0)),
            "srmtrun: refused: lex main BadByte at 0\n",
        ),
        (
            BOTH,
            b"int",
            b" @",
            lexed(Which::Binary, LexRefusal::BadByte(1)),
            "srmtrun: refused: lex binary BadByte at 1\n",
        ),
        (
            BOTH,
            b"int",
            b"",
            parsed(Which::Main, ParseRefusal::Expected(3)),
            "srmtrun: refused: parse main Expected at 3\n",
        ),
        (
            BOTH,
            EMPTY,
            b"int;",
            parsed(Which::Binary, ParseRefusal::Expected(3)),
            "srmtrun: refused: parse binary Expected at 3\n",
        ),
        (
            &["--input", "none", "a.c", "--check"],
            b"@",
            b"",
            RunAnswer::ReadFault,
            READING,
        ),
    ];
    assert!(rt; all_answer(rt.alloc(), &rows)?);
    Ok(())
}

#[test]
fn types_are_checked(rt: HostRuntime) -> Result<(), Fail> {
    let rows: [Row; 9] = [
        (
            ALONE,
            b"int main(void){return x;}",
            b"",
            typed(TypeRefusal::Unknown(1)),
            "srmtrun: refused: type Unknown at line 1\n",
        ),
        (
            ALONE,
            b"int main(void){int a[2]; a = 0; return 0;}",
            b"",
            typed(TypeRefusal::Mismatch(1, 7)),
            "srmtrun: refused: type Mismatch 7 at line 1\n",
        ),
        (
            ALONE,
            b"int main(void){return 0;}\nint main(void){return 0;}",
            b"",
            typed(TypeRefusal::Twice(2)),
            "srmtrun: refused: type Twice at line 2\n",
        ),
        (
            BOTH,
            EMPTY,
            b"\nint f(void) { return x; }",
            typed(TypeRefusal::Unknown(2_000_002)),
            "srmtrun: refused: type Unknown at binary line 2\n",
        ),
        (
            ALONE,
            b"int f(void){return 0;}",
            b"",
            typed(TypeRefusal::NoMain),
            "srmtrun: refused: type NoMain\n",
        ),
        (
            ALONE,
            EACH,
            b"",
            typed(TypeRefusal::Unresolved(3)),
            "srmtrun: refused: type Unresolved at line 3\n",
        ),
        (
            BOTH,
            EACH,
            b"int each(int n, int (*f)(int)) { return f(n); }",
            RunAnswer::Checked,
            "",
        ),
        (ALONE, EMPTY, b"", RunAnswer::Checked, ""),
        (
            &["--check", "--input", "in", "a.c"],
            EMPTY,
            b"",
            RunAnswer::Checked,
            "",
        ),
    ];
    assert!(rt; all_answer(rt.alloc(), &rows)?);
    Ok(())
}

#[test]
fn words_are_taken_in_any_order(rt: HostRuntime) -> Result<(), Fail> {
    let refused = lexed(Which::Binary, LexRefusal::BadByte(0));
    let line = "srmtrun: refused: lex binary BadByte at 0\n";
    let orders: [&'static [&'static str]; 7] = [
        &["--binary", "b.c", "--input", "in", "--check", "a.c"],
        &["--check", "--input", "in", "--binary", "b.c", "a.c"],
        &["a.c", "--input", "in", "--check", "--binary", "b.c"],
        &["--input", "in", "a.c", "--binary", "b.c", "--check"],
        &["--turns", "1", "a.c", "--binary", "b.c", "--check"],
        &[
            "a.c",
            "--reference",
            "--binary",
            "b.c",
            "--turns",
            "1000000000000",
        ],
        &[
            "--binary",
            "b.c",
            "--turns",
            "20",
            "--input",
            "in",
            "--reference",
            "a.c",
        ],
    ];
    for words in orders {
        let row = (words, EMPTY, b"@".as_slice(), refused, line);
        assert!(rt; answers(rt.alloc(), &row)?, "{words:?}");
    }
    let usages: [&'static [&'static str]; 24] = [
        &["--check"],
        &["a.c", "--binary", "b.c"],
        &["a.c", "--check", "--binary"],
        &["a.c", "--check", "--binary", "--input"],
        &["a.c", "--check", "--binary", "-b.c"],
        &["a.c", "--check", "--binary=b.c"],
        &["a.c", "--check", "--check"],
        &["a.c", "a.c", "--check"],
        &["a.c", "--check", "--input", "in", "--input", "in"],
        &["a.c", "--check", "--binary", "b.c", "--binary", "b.c"],
        &["a.c", "--single", "--input", "in"],
        &["a.c", "--alternate", "--binary", "b.c"],
        &["a.c", "--single", "--turns", "5"],
        &["a.c", "--reference", "--check"],
        &["a.c", "--reference", "--turns"],
        &["a.c", "--reference", "--turns", "5", "--turns", "5"],
        &["a.c", "--reference", "--turns", "0"],
        &["a.c", "--reference", "--turns", "05"],
        &["a.c", "--reference", "--turns", "+5"],
        &["a.c", "--reference", "--turns", "-5"],
        &["a.c", "--reference", "--turns", ""],
        &["a.c", "--reference", "--turns", "5 "],
        &["a.c", "--reference", "--turns", "1000000000001"],
        &["--help", "--check", "a.c"],
    ];
    for words in usages {
        let row = (words, EMPTY, EMPTY, RunAnswer::Usage, USAGE);
        assert!(rt; answers(rt.alloc(), &row)?, "{words:?}");
    }
    Ok(())
}
