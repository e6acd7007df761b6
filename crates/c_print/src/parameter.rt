//! The lexemes of parameters.

ghost use Rattle.std.specs.Prelude.{◌≡◌, ◌++◌, ◌∷◌, [], OnOk, map};
ghost use Rattle.c_print.specs.Words.{with_commas};
ghost use Rattle.c_print.specs.Declarations.{parameter_name, parameter_of, parameter_words, parameters_of};

use crate::declaration::print_brackets;
use crate::types::{print_base, print_stars};
use crate::words::{print_name, print_punct, print_separator, print_word};
use c_ast::{Decl, Keyword, Lexeme, Name, Punctuator};
use std::alloc::{AllocError, Global};

/// Appends a name, unless it is empty, as that of a parameter may be.
#[tactic(auto, using(crate::proofs::Answers::named_parameter, crate::proofs::Answers::unnamed_parameter))]
fn print_parameter_name(alloc: Global, name: &Name, out: &mut Vec<Lexeme>) -> Result<(), AllocError>
    ensures { OnOk result (out.new.items ≡ out.old.items ++ parameter_name name.now) }
{
    if name.as_slice().len() == 0 {
        Ok(())
    } else {
        print_name(alloc, name, out)
    }
}

fn print_parameter(alloc: Global, decl: &Decl, out: &mut Vec<Lexeme>) -> Result<(), AllocError>
    ensures { OnOk result (out.new.items ≡ out.old.items ++ parameter_of decl.now) }
{
    print_base(alloc, &decl.ty, out)?;
    print_stars(&decl.ty, out)?;
    print_parameter_name(alloc, &decl.name, out)?;
    print_brackets(alloc, &decl.ty, out)
}

fn print_parameter_list(
    alloc: Global,
    decls: &[Decl],
    out: &mut Vec<Lexeme>,
) -> Result<(), AllocError>
    ensures { OnOk result (out.new.items ≡ out.old.items ++ with_commas (map parameter_of decls.now)) }
{
    for (index, decl) in decls.iter().enumerate() {
        print_separator(index, out)?;
        print_parameter(alloc, decl, out)?;
    }
    Ok(())
}

#[tactic(auto, using(crate::proofs::Answers::some_parameters, crate::proofs::Answers::no_parameters))]
fn print_parameter_words(
    alloc: Global,
    decls: &[Decl],
    out: &mut Vec<Lexeme>,
) -> Result<(), AllocError>
    ensures { OnOk result (out.new.items ≡ out.old.items ++ parameter_words decls.now) }
{
    if decls.len() == 0 {
        print_word(Keyword::Void, out)
    } else {
        print_parameter_list(alloc, decls, out)
    }
}

/// Appends the parameters of a function in their parentheses (C11 6.7.6.3).
pub fn print_parameters(
    alloc: Global,
    decls: &[Decl],
    out: &mut Vec<Lexeme>,
) -> Result<(), AllocError>
    ensures { OnOk result (out.new.items ≡ out.old.items ++ parameters_of decls.now) }
{
    print_punct(Punctuator::LeftParen, out)?;
    print_parameter_words(alloc, decls, out)?;
    print_punct(Punctuator::RightParen, out)
}
