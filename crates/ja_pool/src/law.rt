ghost use Rattle.std.specs.Prelude.{◌≡◌, ◌⊎◌, ◌<◌};
ghost use Rattle.std.specs.List.{AllByRecursion};
ghost use Rattle.ja_bytes.specs.Reading.{Reading};
ghost use Rattle.ja_pool.specs.declared.fault.PoolFault.{PoolFault};
ghost use Rattle.ja_pool.specs.Table.{Table};
ghost use Rattle.ja_pool.specs.Pool.{PassesPool, IsFirstFault};

/// Bytes spell a pool or have a first fault, and not both: one pool, which ends at one place, or one fault.
pub fn law_one_reading()
    ensures either { (old : Reading) → AllByRecursion (λ b. b < 256) old.rest →
        ((new : Reading) × (table : Table) × PassesPool old new table) ⊎ ((fault : PoolFault) × IsFirstFault old fault) }
    ensures one { (old new other_new : Reading) (table other : Table) → PassesPool old new table → PassesPool old other_new other →
        (table ≡ other) × (new ≡ other_new) }
    ensures no_fault { (old new : Reading) (table : Table) (fault : PoolFault) → PassesPool old new table → IsFirstFault old fault → ⊥ }
    ensures one_fault { (old : Reading) (fault other : PoolFault) → IsFirstFault old fault → IsFirstFault old other → fault ≡ other }
{}
