//! Words that printing puts between the parts of a tree.

ghost use Rattle.std.specs.Prelude.{◌≡◌, ◌++◌, ◌∷◌, [], OnOk};
ghost use Rattle.c_print.specs.Words.{word, punct, separator};
ghost use Rattle.c_print.specs.Expressions.{int_words, type_name_of, parts_of};

use c_ast::{Bytes, IntType, Keyword, Lexeme, Name, Punctuator};
use std::alloc::{AllocError, Global};

/// Appends a keyword.
pub fn print_word(keyword: Keyword, out: &mut Vec<Lexeme>) -> Result<(), AllocError>
    ensures { OnOk result (out.new.items ≡ out.old.items ++ word keyword ∷ []) }
{
    out.push(Lexeme::Keyword(keyword.number()))?;
    Ok(())
}

/// Appends a punctuator.
pub fn print_punct(punctuator: Punctuator, out: &mut Vec<Lexeme>) -> Result<(), AllocError>
    ensures { OnOk result (out.new.items ≡ out.old.items ++ punct punctuator ∷ []) }
{
    print_mark(punctuator.number(), out)
}

/// Appends the punctuator of a number.
pub fn print_mark(number: u8, out: &mut Vec<Lexeme>) -> Result<(), AllocError>
    ensures { OnOk result (out.new.items ≡ out.old.items ++ Lexeme.Punct number ∷ []) }
{
    out.push(Lexeme::Punct(number))?;
    Ok(())
}

/// Appends a comma, except before the first of several parts.
pub fn print_separator(index: usize, out: &mut Vec<Lexeme>) -> Result<(), AllocError>
    ensures { OnOk result (out.new.items ≡ out.old.items ++ separator index) }
{
    if index == 0 {
        Ok(())
    } else {
        print_punct(Punctuator::Comma, out)
    }
}

/// Appends a name.
pub fn print_name(alloc: Global, name: &Name, out: &mut Vec<Lexeme>) -> Result<(), AllocError>
    ensures { OnOk result (out.new.items ≡ out.old.items ++ Lexeme.Name name.now ∷ []) }
{
    out.push(Lexeme::Name(name.copy(alloc)?))?;
    Ok(())
}

/// Appends a text.
pub fn print_text(alloc: Global, bytes: &Bytes, out: &mut Vec<Lexeme>) -> Result<(), AllocError>
    ensures { OnOk result (out.new.items ≡ out.old.items ++ Lexeme.Text bytes.now ∷ []) }
{
    out.push(Lexeme::Text(bytes.copy(alloc)?))?;
    Ok(())
}

/// Appends an integer constant.
pub fn print_number(value: u64, ty: IntType, out: &mut Vec<Lexeme>) -> Result<(), AllocError>
    ensures { OnOk result (out.new.items ≡ out.old.items ++ Lexeme.Number value ty ∷ []) }
{
    out.push(Lexeme::Number(value, ty))?;
    Ok(())
}

/// Appends the shortest words of an integer type (C11 6.7.2).
pub fn print_int_type(ty: IntType, out: &mut Vec<Lexeme>) -> Result<(), AllocError>
    ensures { OnOk result (out.new.items ≡ out.old.items ++ int_words ty) }
{
    match ty {
        IntType::Char => print_word(Keyword::Char, out),
        IntType::SignedChar => print_words(Keyword::Signed, Keyword::Char, out),
        IntType::UnsignedChar => print_words(Keyword::Unsigned, Keyword::Char, out),
        IntType::Short => print_word(Keyword::Short, out),
        IntType::UShort => print_words(Keyword::Unsigned, Keyword::Short, out),
        IntType::Int => print_word(Keyword::Int, out),
        IntType::UInt => print_word(Keyword::Unsigned, out),
        IntType::Long => print_word(Keyword::Long, out),
        IntType::ULong => print_words(Keyword::Unsigned, Keyword::Long, out),
    }
}

fn print_words(first: Keyword, second: Keyword, out: &mut Vec<Lexeme>) -> Result<(), AllocError>
    ensures { OnOk result (out.new.items ≡ out.old.items ++ word first ∷ word second ∷ []) }
{
    print_word(first, out)?;
    print_word(second, out)
}
