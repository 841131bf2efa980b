ghost use Rattle.std.specs.Prelude.{◌≡◌, ◌==◌};
ghost use Rattle.std.specs.List.{list_any};
ghost use Rattle.ja_ir.specs.Lookup as lookup;
ghost use Rattle.ja_ir.specs.Tokens as tokens;

use ja_base::ClassId;
use ja_ir::Program;

/// The token of texts.
pub fn text_token(p: &Program) -> u32
    ensures { result ≡ tokens.text_token p.now }
{
    p.classes().len() as u32
}

/// The token of library objects.
pub fn lib_token(p: &Program) -> u32
    ensures { result ≡ tokens.lib_token p.now }
{
    p.classes().len() as u32 + 1
}

/// The token of arrays of references.
pub fn rarr_token(p: &Program) -> u32
    ensures { result ≡ tokens.rarr_token p.now }
{
    p.classes().len() as u32 + 2
}

/// The token of arrays of primitives.
pub fn parr_token(p: &Program) -> u32
    ensures { result ≡ tokens.parr_token p.now }
{
    p.classes().len() as u32 + 3
}

/// Whether the token is a program class at or below a class.
pub fn at_or_below(p: &Program, token: u32, class: u32) -> bool
    ensures { result ≡ lookup.at_or_below p.now token class }
{
    match p.classes().as_slice().get(token as usize) {
        Some(info) => has_class(info.supers.as_slice(), class),
        None => false,
    }
}

// Whether a class is among the ids.
fn has_class(ids: &[ClassId], class: u32) -> bool
    ensures { result ≡ list_any (λ id. id.0 == class) ids.now }
{
    ids.iter().any(|id| id.0 == class)
}

/// Whether objects of the token are absorbing: their bags may take things.
pub fn absorbs(p: &Program, token: u32) -> bool
    ensures { result ≡ tokens.absorbs p.now token }
{
    match p.classes().as_slice().get(token as usize) {
        Some(info) => info.absorbing,
        None => token == lib_token(p) || (token == rarr_token(p) || token == parr_token(p)),
    }
}
