use crate::{LexRefusal, Token, TokenKind, text, tokens};
use srmt_base::Ty;
use std::alloc::Global;
use std::process::Abort;
use std::test::Fail;

fn lex(rt: &impl Abort, alloc: Global, src: &[u8]) -> Result<Vec<Token>, LexRefusal> {
    assert!(rt; src.len() <= 1048576);
    tokens(alloc, src)
}

/// Sources of one token each.
const TOKENS: [(&[u8], TokenKind); 34] = [
    (b"auto", TokenKind::Keyword(0)),
    (b"float", TokenKind::Keyword(12)),
    (b"while", TokenKind::Keyword(33)),
    (b"_Alignas", TokenKind::Keyword(34)),
    (b"_Thread_local", TokenKind::Keyword(43)),
    (b"whil", TokenKind::Name),
    (b"doe", TokenKind::Name),
    (b"_a1_B", TokenKind::Name),
    (b"0", TokenKind::Number(Ty::Int, 0)),
    (b"2147483647", TokenKind::Number(Ty::Int, 2147483647)),
    (b"7u", TokenKind::Number(Ty::UInt, 7)),
    (b"4294967295U", TokenKind::Number(Ty::UInt, 4294967295)),
    (b"017", TokenKind::Number(Ty::Int, 15)),
    (b"020000000000", TokenKind::Number(Ty::UInt, 2147483648)),
    (b"0XaF", TokenKind::Number(Ty::Int, 175)),
    (b"0x7fffffff", TokenKind::Number(Ty::Int, 2147483647)),
    (b"0xffffffff", TokenKind::Number(Ty::UInt, 4294967295)),
    (b"'a'", TokenKind::Character(97)),
    (b"'\\n'", TokenKind::Character(10)),
    (b"'\\''", TokenKind::Character(39)),
    (b"'\\x41'", TokenKind::Character(65)),
    (b"'\\101'", TokenKind::Character(65)),
    (b"'\\377'", TokenKind::Character(4294967295)),
    (b"'\xff'", TokenKind::Character(4294967295)),
    (b"\"\"", TokenKind::Text),
    (b"\"a\\\"\\?\\v\x80'\"", TokenKind::Text),
    (b"[", TokenKind::Punct(0)),
    (b"->", TokenKind::Punct(7)),
    (b">>", TokenKind::Punct(19)),
    (b">>=", TokenKind::Punct(41)),
    (b"<<=", TokenKind::Punct(40)),
    (b"...", TokenKind::Punct(33)),
    (b"|=", TokenKind::Punct(44)),
    (b",", TokenKind::Punct(45)),
];

/// Sources that are refused, with the place of the fault.
const REFUSALS: [(&[u8], LexRefusal); 28] = [
    (
        b"int main(void){return 2147483648;}",
        LexRefusal::LiteralTooWide(22),
    ),
    (b"#define N 3", LexRefusal::Directive(0)),
    (b"a @", LexRefusal::BadByte(2)),
    (b"a #", LexRefusal::BadByte(2)),
    (b"\\", LexRefusal::BadByte(0)),
    (b"int x; /*\n*/ #include <stdio.h>", LexRefusal::BadByte(13)),
    (b" /* x", LexRefusal::OpenComment(1)),
    (b"/*/", LexRefusal::OpenComment(0)),
    (b"x 'a", LexRefusal::OpenText(2)),
    (b"\"a\nb\"", LexRefusal::OpenText(0)),
    (b"'\\q\n'", LexRefusal::OpenText(0)),
    (b"''", LexRefusal::BadText(0)),
    (b"+'ab'", LexRefusal::BadText(1)),
    (b"'\\q'", LexRefusal::BadText(0)),
    (b"\"\\400\"", LexRefusal::BadText(0)),
    (b"\"\\x100\"", LexRefusal::BadText(0)),
    (b"\"\\x\"", LexRefusal::BadText(0)),
    (b"08", LexRefusal::BadNumber(0)),
    (b"1.5", LexRefusal::BadNumber(0)),
    (b"0x", LexRefusal::BadNumber(0)),
    (b"0xe+1", LexRefusal::BadNumber(0)),
    (b"99999999999L", LexRefusal::BadNumber(0)),
    (b"4294967296u", LexRefusal::LiteralTooWide(0)),
    (b"0x100000000", LexRefusal::LiteralTooWide(0)),
    (b" # include <stdlib.h> x", LexRefusal::Directive(1)),
    (b"#include <stdio.h> /*", LexRefusal::Directive(0)),
    (
        b"#include <stdio.h> /*\n*/ int x;",
        LexRefusal::Directive(0),
    ),
    (b"'' @", LexRefusal::BadText(0)),
];

#[test]
fn each_kind_and_each_refusal(rt: HostRuntime) {
    for (src, kind) in TOKENS {
        let Ok(list) = lex(&rt, rt.alloc(), src) else {
            panic!(rt; "{src:?} is refused");
        };
        assert_eq!(rt; list.len(), 1, "in {src:?}");
        assert!(rt; src.len() < 100);
        let want = Token {
            kind,
            start: 0,
            end: src.len() as u32,
            line: 1,
        };
        assert_eq!(rt; list[0], want, "in {src:?}");
    }
    for (src, refusal) in REFUSALS {
        match lex(&rt, rt.alloc(), src) {
            Ok(_) => panic!(rt; "{src:?} has tokens"),
            Err(e) => assert_eq!(rt; e, refusal, "in {src:?}"),
        }
    }
}

/// Places, lines with CR LF and with a comment over two lines, and the bytes of a text.
#[test]
fn places_lines_and_texts(rt: HostRuntime) -> Result<(), Fail> {
    let src = b"#include <stdio.h>\n/* a\n */ x\r\n  >>=\"\\x41\\tb\\60\" // z\n.5";
    let list = tokens(rt.alloc(), src).map_err(|_| "refused")?;
    let token = |kind, start, end, line| Token {
        kind,
        start,
        end,
        line,
    };
    let want = [
        token(TokenKind::Name, 28, 29, 3),
        token(TokenKind::Punct(41), 33, 36, 4),
        token(TokenKind::Text, 36, 48, 4),
        token(TokenKind::Punct(6), 54, 55, 5),
        token(TokenKind::Number(Ty::Int, 5), 55, 56, 5),
    ];
    assert_eq!(rt; list.as_slice(), want.as_slice());
    let bytes = text(rt.alloc(), src, want[2])?.ok_or("no text")?;
    assert_eq!(rt; bytes.as_slice(), b"A\tb0".as_slice());
    Ok(())
}

/// A source with tokens of every kind, comments and an include line.
const WHOLE: &[u8] =
    b"#include <stdio.h> // in\n/* all\n * kinds */\nstatic unsigned char table[3] = { 'a', '\\n', '\\377' };\r\n\
int main(void) {\n  const char *s = \"text \\\"\\x41\\101\\\\\" /* gap */;\n  for (int i = 0; i <= 0x1f; i += 2u)\n    \
if (*s != 017 && ~i >>= 1) putchar(s[i] ? 1 : 0);\n  # include <stdlib.h>\n  return 2147483647;\n}\n";

#[test]
fn each_prefix_has_tokens_or_a_fault(rt: HostRuntime) {
    for len in 0..WHOLE.len() + 1 {
        match lex(&rt, rt.alloc(), &WHOLE[..len]) {
            Ok(list) => {
                for token in list.iter() {
                    assert!(rt; token.end as usize <= len, "at {len}");
                }
            }
            Err(e) => {
                assert_ne!(rt; e, LexRefusal::Memory, "at {len}");
                assert!(rt; len < WHOLE.len());
            }
        }
    }
}
