ghost use Rattle.std.specs.Prelude.{◌≤◌, length, option_copied, IfOk, IfErr};
ghost use Rattle.c_lexer.specs.Tokens.{Lexes};
ghost use Rattle.c_parser.specs.Answers.{IsUnitWithin};
ghost use Rattle.c_front.specs.Layers.{StopsLexing, StopsParsing, StopsTyping, IsTyping};

use answers::{CompileRefusal, RunAnswer, Which};
use c_lexer::{LexRefusal, Token, tokens};
use c_parser::{ParseRefusal, parse};
use c_tree::Unit;
use c_typed::TypedProgram;
use c_typing::check;
use std::alloc::Global;
use typing_rules::TypeRefusal;

/// The tokens of a file (C11 6.4).
pub(crate) fn lex(alloc: Global, which: Which, src: &[u8]) -> Result<Vec<Token>, RunAnswer>
    requires { length src.now ≤ 1048576 }
    ensures ok { IfOk result (λ found. Lexes src.now found.items) }
    ensures err { IfErr result (StopsLexing which src.now) }
{
    match tokens(alloc, src) {
        Ok(found) => Ok(found),
        Err(LexRefusal::Memory) => Err(RunAnswer::OutOfMemory),
        Err(cause) => Err(RunAnswer::Refused(CompileRefusal::Lex(which, cause))),
    }
}

/// The tree of a file (C11 6.9).
pub(crate) fn parse_file(
    alloc: Global,
    which: Which,
    tokens: &[Token],
    src: &[u8],
) -> Result<Unit, RunAnswer>
    requires lexed { Lexes src.now tokens.now }
    requires size { length src.now ≤ 1048576 }
    ensures ok { IfOk result (IsUnitWithin tokens.now src.now) }
    ensures err { IfErr result (StopsParsing which tokens.now src.now) }
{
    match parse(alloc, tokens, src) {
        Ok(unit) => Ok(unit),
        Err(ParseRefusal::Memory) => Err(RunAnswer::OutOfMemory),
        Err(cause) => Err(RunAnswer::Refused(CompileRefusal::Parse(which, cause))),
    }
}

/// The typed program of one or two trees.
pub(crate) fn type_files(
    alloc: Global,
    main: &Unit,
    binary: Option<&Unit>,
) -> Result<TypedProgram, RunAnswer>
    ensures ok { IfOk result (IsTyping main.now (option_copied binary.entry)) }
    ensures err { IfErr result (StopsTyping main.now (option_copied binary.entry)) }
{
    match check(alloc, main, binary) {
        Ok(program) => Ok(program),
        Err(TypeRefusal::Memory) => Err(RunAnswer::OutOfMemory),
        Err(cause) => Err(RunAnswer::Refused(CompileRefusal::Typing(cause))),
    }
}
