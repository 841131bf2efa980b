// The rule of the table's words and views, and what each kind of step tells its seat.
ghost use Rattle.ja_node_table.specs.Rule.{IsReached, first_view, spent_view, with_both, Looked, Claimed};

use crate::view::{Plan, View};
use atomic_table::{Join, Play, Split, TableRule};
use ja_node_core::Aim;

/// The words and the views are what some list of the table machine's events makes.
pub struct Reached;

impl<A: Aim> TableRule<(), View<A>, Plan<A>> for Reached {
    ghost holds = { IsReached A.aims };

    ghost first = { first_view };
}

/// A load: the event in which an actor looks at a place.
pub struct Looks;

impl<A: Aim> Play<(), View<A>> for Looks {
    ghost then = { Looked A.aims };
}

/// A compare-exchange from 0, won or lost: the event in which an actor claims a place.
pub struct Claims;

impl<A: Aim> Play<(), View<A>> for Claims {
    ghost then = { Claimed A.aims };
}

/// A second seat that knows the same: the event in which an actor forks.
pub struct Forks;

impl<A> Split<View<A>> for Forks {
    ghost left = { λ v. v };

    ghost right = { λ v. v };
}

/// One seat for two: the event in which two actors meet, and one of them is gone.
pub struct Meets;

impl<A> Join<View<A>> for Meets {
    ghost both = { with_both };

    ghost spent = { spent_view };
}
