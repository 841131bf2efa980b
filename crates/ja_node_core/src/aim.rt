/// Says, for contracts alone, which functions of variables a table is for.
///
/// Functions are named by their reduced trees.
pub trait Aim: Copy + Send + Sync {
    ghost use Rattle.std.specs.Prelude.{ℕ};
    ghost use Rattle.ja_node_core.specs.Tree.{Tree, branch};

    ghost aims: { Self → Tree → Type 0 };

    // Fixing the first variable of a function of the aim gives functions of the aim, and so does fixing all variables below some one.
    ghost falls: { (aim : Self) (v : ℕ) (low high : Tree) → aims aim (branch v low high) → aims aim low × aims aim high };
}

/// The aim of all functions.
#[derive(Clone, Copy)]
pub struct AnyAim;

impl Aim for AnyAim {
    ghost aims = { λ aim t. Unit {0} };

    ghost falls = { λ aim v low high is. (tt, tt) };
}
