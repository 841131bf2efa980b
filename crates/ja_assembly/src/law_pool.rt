ghost use Rattle.std.specs.Prelude.{◌≤◌, length};
ghost use Rattle.std.specs.List.{AllByRecursion};
ghost use Rattle.ja_class.specs.ClassFile.{IsPool, pool_of};
ghost use Rattle.ja_listing.specs.Listed.{Listed};
ghost use Rattle.ja_assembly.specs.Members.{items_of_class};
ghost use Rattle.ja_assembly.specs.Wanted.{keys_of, pool_strings, entries};
ghost use Rattle.ja_assembly.specs.Assembled.{pool_for, file_of};
ghost use Rattle.ja_assembly.specs.Written.{IsOrdered};
ghost use Rattle.ja_assembly.specs.Right.{IsRightKey, IsRightPool};

/// Where the entries that a class asks for are right and few, each stands in the pool at its index, the
/// pool has a place in a class file, and its order is that of first use, the strings first (JVM
/// specification 4.4).
pub fn law_right_pool()
    ensures right { (c : Listed) → AllByRecursion IsRightKey (keys_of c.head (items_of_class c)) → length (pool_strings (items_of_class c)) ≤ 255
        → entries c.head (items_of_class c) ≤ 65534 → IsRightPool (pool_for c) (pool_of (file_of c)) }
    ensures pool { (c : Listed) → AllByRecursion IsRightKey (keys_of c.head (items_of_class c)) → length (pool_strings (items_of_class c)) ≤ 255
        → entries c.head (items_of_class c) ≤ 65534 → IsPool (file_of c) }
    ensures order { (c : Listed) → AllByRecursion IsRightKey (keys_of c.head (items_of_class c)) → length (pool_strings (items_of_class c)) ≤ 255
        → entries c.head (items_of_class c) ≤ 65534 → IsOrdered (pool_of (file_of c)) (pool_strings (items_of_class c)) }
{}
