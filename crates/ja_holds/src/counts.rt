ghost use Rattle.std.specs.Prelude.{◌≡◌};
ghost use Rattle.ja_facts.specs.ClassTables as tables;
ghost use Rattle.ja_facts.specs.FactTables as cells;
ghost use Rattle.ja_ir.specs.Tokens as tokens;

use ja_ir::Program;

/// The number of the tokens of a program.
pub fn token_count(p: &Program) -> u32
    ensures { result ≡ tables.token_count p.now }
{
    p.classes().len() as u32 + 4
}

/// The number of the fields of a program and of the bags of its tokens.
pub fn cell_count(p: &Program) -> u32
    ensures { result ≡ cells.cell_count p.now }
{
    p.fields().len() as u32 + token_count(p)
}

/// Whether objects of a token are absorbing: their bags may take things.
pub fn absorbs(p: &Program, token: u32) -> bool
    ensures { result ≡ tokens.absorbs p.now token }
{
    let count = p.classes().len() as u32;
    if token < count {
        p.classes().at(token as u64).absorbing
    } else {
        token == count + 1 || token == count + 2 || token == count + 3
    }
}
