//! Specifiers, declarators and names of types (C11 6.7.1 to 6.7.7).

ghost use Rattle.std.specs.Prelude.{◌≡◌, ◌++◌, length};
ghost use Rattle.c_expr.specs.Reading as reading;
ghost use Rattle.c_expr.specs.Nodes as nodes;
ghost use Rattle.c_expr.specs.Parts as parts;
ghost use Rattle.c_expr.specs.Outcome.{Gives, seen, at_depth, Leads};

use crate::codes::{
    ABSTRACT_STARTS, CLOSE_BRACKET, CLOSE_PAREN, COMMA, DECLARATOR_STARTS, NAME, NAMED_STARTS,
    OPEN_BRACKET, OPEN_PAREN, QUALIFIERS, SPECIFIER_WORDS, STAR, SUFFIX_STARTS,
};
use crate::fault::{Fault, Read};
use crate::grammar::Grammar;
use crate::leaf::spelling;
use crate::list::with_item;
use crate::start::{Naming, Start};
use crate::tokens::{begins, begins_in, encloses, line_here, one, sign};
use c_lexer::Token;
use c_tree::{Declarator, Direct, Expr, Name, Parameter, Pointer, Specifier, Suffix, TypeName};
use sqlite_items::{Boxed, Items};
use std::alloc::Global;

/// A word of specifiers.
#[tactic(auto, unfolding(crate::specs::Reading::specifier))]
fn specifier(tokens: &[Token]) -> Read<'_, Specifier>
    ensures { Gives seen result (reading.specifier tokens.now) }
{
    let ((line, word), rest) = sign(&SPECIFIER_WORDS, tokens)?;
    Ok((Specifier { line, word }, rest))
}

/// At least one word.
#[tactic(auto, unfolding(crate::specs::Reading::specifiers, crate::specs::Reading::grown_from))]
pub fn specifiers(alloc: Global, tokens: &[Token]) -> Read<'_, Items<Specifier>>
    ensures { Gives seen result (reading.specifiers tokens.now) }
{
    let mut words = Items::new(alloc);
    let (first, mut rest) = specifier(tokens)?;
    words.push(first)?;
    for _turn in 0..rest.len() {
        if !begins_in(&SPECIFIER_WORDS, rest) {
            break;
        }
        let (word, more) = specifier(rest)?;
        words.push(word)?;
        rest = more;
    }
    Ok((words, rest))
}

/// A pointer with one qualifier more.
fn qualified(pointer: Pointer, is_const: bool) -> Pointer
    ensures { result ≡ nodes.qualified pointer is_const }
{
    if is_const {
        Pointer {
            is_const: true,
            ..pointer
        }
    } else {
        Pointer {
            is_volatile: true,
            ..pointer
        }
    }
}

/// A `*` with the qualifiers behind it.
#[tactic(auto, unfolding(crate::specs::Reading::pointer, crate::specs::Reading::grown_from))]
fn pointer(tokens: &[Token]) -> Read<'_, Pointer>
    ensures { Gives seen result (reading.pointer tokens.now) }
{
    let (star, mut rest) = one(STAR, tokens)?;
    let mut pointer = Pointer {
        line: star.line,
        is_const: false,
        is_volatile: false,
    };
    for _turn in 0..rest.len() {
        if !begins_in(&QUALIFIERS, rest) {
            break;
        }
        let ((_line, is_const), more) = sign(&QUALIFIERS, rest)?;
        pointer = qualified(pointer, is_const);
        rest = more;
    }
    Ok((pointer, rest))
}

#[tactic(auto, unfolding(crate::specs::Reading::pointers, crate::specs::Reading::grown_from))]
fn pointers(alloc: Global, tokens: &[Token]) -> Read<'_, Items<Pointer>>
    ensures { Gives seen result (reading.pointers tokens.now) }
{
    let mut found = Items::new(alloc);
    let mut rest = tokens;
    for _turn in 0..tokens.len() {
        if !begins(&[STAR], rest) {
            break;
        }
        let (next, more) = pointer(rest)?;
        found.push(next)?;
        rest = more;
    }
    Ok((found, rest))
}

/// The line of the first of some specifiers.
pub fn first_line(specifiers: &Items<Specifier>) -> u32
    ensures { result ≡ nodes.first_line specifiers.now }
{
    match specifiers.as_slice() {
        [] => 0,
        [first, ..] => first.line,
    }
}

impl<'s, E, D> Grammar<'s, E, D>
where
    E: Fn(Start, &[Token]) -> Result<(Boxed<Expr>, &[Token]), Fault>,
    D: Fn(Naming, &[Token]) -> Result<(Declarator, &[Token]), Fault>,
{
    /// `[`, perhaps a length, and `]`.
    #[tactic(auto, unfolding(crate::specs::Reading::array))]
    fn array<'t>(&self, tokens: &'t [Token]) -> Read<'t, Suffix>
        requires { Leads E.Fn D.Fn self.now.expr self.now.declarator self.now.src.now self.now.depth }
        ensures { Gives seen result (at_depth reading.array self.now.src.now self.now.depth tokens.now) }
    {
        let (open, rest) = one(OPEN_BRACKET, tokens)?;
        let (length, rest) = self.array_length(rest)?;
        let (_close, rest) = one(CLOSE_BRACKET, rest)?;
        Ok((Suffix::Array(open.line, length), rest))
    }

    /// What stands between the brackets of an array.
    fn array_length<'t>(&self, tokens: &'t [Token]) -> Read<'t, Option<Boxed<Expr>>>
        requires { Leads E.Fn D.Fn self.now.expr self.now.declarator self.now.src.now self.now.depth }
        ensures { Gives seen result (at_depth parts.array_length self.now.src.now self.now.depth tokens.now) }
    {
        if begins(&[CLOSE_BRACKET], tokens) {
            return Ok((None, tokens));
        }
        let (length, rest) = (self.expr)(Start::Conditional, tokens)?;
        Ok((Some(length), rest))
    }

    /// The declarator of a parameter, if it has one.
    fn declared<'t>(
        &self,
        naming: Naming,
        starts: &[u16],
        tokens: &'t [Token],
    ) -> Read<'t, Option<Boxed<Declarator>>>
        requires { Leads E.Fn D.Fn self.now.expr self.now.declarator self.now.src.now self.now.depth }
        ensures { Gives seen result (at_depth parts.declared self.now.src.now self.now.depth naming starts.now tokens.now) }
    {
        if !begins(starts, tokens) {
            return Ok((None, tokens));
        }
        let (declarator, rest) = (self.declarator)(naming, tokens)?;
        Ok((Some(Boxed::new(self.alloc, declarator)?), rest))
    }

    #[tactic(auto, unfolding(crate::specs::Reading::parameter, crate::specs::Nodes::parameter_node))]
    fn parameter<'t>(&self, tokens: &'t [Token]) -> Read<'t, Parameter>
        requires { Leads E.Fn D.Fn self.now.expr self.now.declarator self.now.src.now self.now.depth }
        ensures { Gives seen result (at_depth reading.parameter self.now.src.now self.now.depth tokens.now) }
    {
        let (specifiers, rest) = specifiers(self.alloc, tokens)?;
        let (declarator, rest) = self.declared(Naming::Either, &DECLARATOR_STARTS, rest)?;
        let line = first_line(&specifiers);
        Ok((
            Parameter {
                line,
                specifiers,
                declarator,
            },
            rest,
        ))
    }

    /// A parameter behind a comma.
    fn next_parameter<'t>(&self, tokens: &'t [Token]) -> Read<'t, Parameter>
        requires { Leads E.Fn D.Fn self.now.expr self.now.declarator self.now.src.now self.now.depth }
        ensures { Gives seen result (reading.behind_comma (at_depth reading.parameter self.now.src.now self.now.depth) tokens.now) }
    {
        let (_comma, rest) = one(COMMA, tokens)?;
        let (parameter, rest) = self.parameter(rest)?;
        Ok((parameter, rest))
    }

    /// At least one parameter.
    #[tactic(auto, unfolding(crate::specs::Reading::parameters, crate::specs::Reading::grown_from))]
    fn parameters<'t>(&self, tokens: &'t [Token]) -> Read<'t, Items<Parameter>>
        requires { Leads E.Fn D.Fn self.now.expr self.now.declarator self.now.src.now self.now.depth }
        ensures { Gives seen result (at_depth reading.parameters self.now.src.now self.now.depth tokens.now) }
    {
        let mut found = Items::new(self.alloc);
        let (first, mut rest) = self.parameter(tokens)?;
        found.push(first)?;
        for _turn in 0..rest.len() {
            if !begins(&[COMMA], rest) {
                break;
            }
            let (next, more) = self.next_parameter(rest)?;
            found.push(next)?;
            rest = more;
        }
        Ok((found, rest))
    }

    /// What stands between the parentheses of a function.
    fn parameter_list<'t>(&self, tokens: &'t [Token]) -> Read<'t, Items<Parameter>>
        requires { Leads E.Fn D.Fn self.now.expr self.now.declarator self.now.src.now self.now.depth }
        ensures { Gives seen result (at_depth parts.parameter_list self.now.src.now self.now.depth tokens.now) }
    {
        if begins(&[CLOSE_PAREN], tokens) {
            return Ok((Items::new(self.alloc), tokens));
        }
        let (found, rest) = self.parameters(tokens)?;
        Ok((found, rest))
    }

    /// `(`, perhaps parameters, and `)`.
    #[tactic(auto, unfolding(crate::specs::Reading::function))]
    fn function<'t>(&self, tokens: &'t [Token]) -> Read<'t, Suffix>
        requires { Leads E.Fn D.Fn self.now.expr self.now.declarator self.now.src.now self.now.depth }
        ensures { Gives seen result (at_depth reading.function self.now.src.now self.now.depth tokens.now) }
    {
        let (open, rest) = one(OPEN_PAREN, tokens)?;
        let (parameters, rest) = self.parameter_list(rest)?;
        let (_close, rest) = one(CLOSE_PAREN, rest)?;
        Ok((Suffix::Function(open.line, parameters), rest))
    }

    #[tactic(auto, unfolding(crate::specs::Reading::suffix))]
    fn suffix<'t>(&self, tokens: &'t [Token]) -> Read<'t, Suffix>
        requires { Leads E.Fn D.Fn self.now.expr self.now.declarator self.now.src.now self.now.depth }
        ensures { Gives seen result (at_depth reading.suffix self.now.src.now self.now.depth tokens.now) }
    {
        if begins(&[OPEN_BRACKET], tokens) {
            self.array(tokens)
        } else {
            self.function(tokens)
        }
    }

    /// What stands behind the middle of a declarator, and behind what was found there before.
    #[tactic(auto, unfolding(crate::specs::Reading::suffixes, crate::specs::Reading::grown_from))]
    fn suffixes<'t>(&self, before: Items<Suffix>, tokens: &'t [Token]) -> Read<'t, Items<Suffix>>
        requires { Leads E.Fn D.Fn self.now.expr self.now.declarator self.now.src.now self.now.depth }
        ensures { Gives seen result (at_depth reading.suffixes self.now.src.now self.now.depth before tokens.now) }
    {
        let mut found = before;
        let mut rest = tokens;
        for _turn in 0..tokens.len() {
            if !begins(&SUFFIX_STARTS, rest) {
                break;
            }
            let (next, more) = self.suffix(rest)?;
            let longer = with_item(self.alloc, found, next)?;
            found = longer;
            rest = more;
        }
        Ok((found, rest))
    }

    /// A name with what stands behind it.
    #[tactic(auto, unfolding(crate::specs::Reading::named))]
    fn named<'t>(&self, tokens: &'t [Token]) -> Read<'t, (Direct, Items<Suffix>)>
        requires { Leads E.Fn D.Fn self.now.expr self.now.declarator self.now.src.now self.now.depth }
        ensures { Gives seen result (at_depth reading.named self.now.src.now self.now.depth tokens.now) }
    {
        let (name, rest) = one(NAME, tokens)?;
        let (suffixes, rest) = self.suffixes(Items::new(self.alloc), rest)?;
        let bytes = spelling(self.alloc, self.src, name)?;
        let name = Name {
            line: name.line,
            bytes,
        };
        Ok(((Direct::Name(name), suffixes), rest))
    }

    /// A declarator in parentheses with what stands behind it.
    #[tactic(auto, unfolding(crate::specs::Reading::nested))]
    fn nested<'t>(&self, naming: Naming, tokens: &'t [Token]) -> Read<'t, (Direct, Items<Suffix>)>
        requires { Leads E.Fn D.Fn self.now.expr self.now.declarator self.now.src.now self.now.depth }
        ensures { Gives seen result (at_depth reading.nested self.now.src.now self.now.depth naming tokens.now) }
    {
        let (_open, rest) = one(OPEN_PAREN, tokens)?;
        let (inner, rest) = (self.declarator)(naming, rest)?;
        let (_close, rest) = one(CLOSE_PAREN, rest)?;
        let (suffixes, rest) = self.suffixes(Items::new(self.alloc), rest)?;
        let inner = Boxed::new(self.alloc, inner)?;
        Ok(((Direct::Nested(inner), suffixes), rest))
    }

    /// At least one suffix, without a name.
    #[tactic(auto, unfolding(crate::specs::Reading::bare))]
    fn bare<'t>(&self, tokens: &'t [Token]) -> Read<'t, (Direct, Items<Suffix>)>
        requires { Leads E.Fn D.Fn self.now.expr self.now.declarator self.now.src.now self.now.depth }
        ensures { Gives seen result (at_depth reading.bare self.now.src.now self.now.depth tokens.now) }
    {
        let (first, rest) = self.suffix(tokens)?;
        let mut suffixes = Items::new(self.alloc);
        suffixes.push(first)?;
        let (suffixes, rest) = self.suffixes(suffixes, rest)?;
        Ok(((Direct::Unnamed, suffixes), rest))
    }

    /// The middle of a declarator with what stands behind it.
    fn core<'t>(&self, naming: Naming, tokens: &'t [Token]) -> Read<'t, (Direct, Items<Suffix>)>
        requires { Leads E.Fn D.Fn self.now.expr self.now.declarator self.now.src.now self.now.depth }
        ensures { Gives seen result (at_depth reading.core self.now.src.now self.now.depth naming tokens.now) }
    {
        match naming {
            Naming::Named => {
                if begins(&[NAME], tokens) {
                    self.named(tokens)
                } else {
                    self.nested(Naming::Named, tokens)
                }
            }
            Naming::Unnamed => {
                if encloses(tokens) {
                    self.nested(Naming::Unnamed, tokens)
                } else {
                    self.bare(tokens)
                }
            }
            Naming::Either => {
                if begins(&[NAME], tokens) {
                    self.named(tokens)
                } else if encloses(tokens) {
                    self.nested(Naming::Either, tokens)
                } else {
                    self.bare(tokens)
                }
            }
        }
    }

    /// Whether a declarator ends behind pointers and before these tokens.
    fn ends(&self, naming: Naming, tokens: &[Token]) -> bool
        ensures { result ≡ at_depth parts.ends self.now.src.now self.now.depth naming tokens.now }
    {
        match naming {
            Naming::Named => false,
            Naming::Unnamed => !begins(&SUFFIX_STARTS, tokens),
            Naming::Either => !begins(&NAMED_STARTS, tokens),
        }
    }

    /// The same behind pointers, behind which a declarator without a name may end.
    #[tactic(auto, unfolding(crate::specs::Reading::core_behind))]
    fn core_behind<'t>(
        &self,
        naming: Naming,
        pointers: &Items<Pointer>,
        tokens: &'t [Token],
    ) -> Read<'t, (Direct, Items<Suffix>)>
        requires { Leads E.Fn D.Fn self.now.expr self.now.declarator self.now.src.now self.now.depth }
        ensures { Gives seen result (at_depth reading.core_behind self.now.src.now self.now.depth naming pointers.now tokens.now) }
    {
        match pointers.as_slice() {
            [] => self.core(naming, tokens),
            [_first, ..] => {
                if self.ends(naming, tokens) {
                    Ok(((Direct::Unnamed, Items::new(self.alloc)), tokens))
                } else {
                    self.core(naming, tokens)
                }
            }
        }
    }

    #[tactic(auto, unfolding(crate::specs::Reading::declarator_line, crate::specs::Nodes::declarator_node))]
    pub fn declarator_line<'t>(&self, naming: Naming, tokens: &'t [Token]) -> Read<'t, Declarator>
        requires { Leads E.Fn D.Fn self.now.expr self.now.declarator self.now.src.now self.now.depth }
        ensures { Gives seen result (at_depth reading.declarator_line self.now.src.now self.now.depth naming tokens.now) }
    {
        let line = line_here(tokens);
        let (pointers, rest) = pointers(self.alloc, tokens)?;
        let ((direct, suffixes), rest) = self.core_behind(naming, &pointers, rest)?;
        let declarator = Declarator {
            line,
            pointers,
            direct,
            suffixes,
        };
        Ok((declarator, rest))
    }

    #[tactic(auto, unfolding(crate::specs::Reading::type_name, crate::specs::Nodes::type_node))]
    pub fn type_name<'t>(&self, tokens: &'t [Token]) -> Read<'t, Boxed<TypeName>>
        requires { Leads E.Fn D.Fn self.now.expr self.now.declarator self.now.src.now self.now.depth }
        ensures { Gives seen result (at_depth reading.type_name self.now.src.now self.now.depth tokens.now) }
    {
        let (specifiers, rest) = specifiers(self.alloc, tokens)?;
        let (declarator, rest) = self.declared(Naming::Unnamed, &ABSTRACT_STARTS, rest)?;
        let line = first_line(&specifiers);
        let name = TypeName {
            line,
            specifiers,
            declarator,
        };
        Ok((Boxed::new(self.alloc, name)?, rest))
    }
}
