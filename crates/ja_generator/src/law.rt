//! What made classes and their files are.

ghost use Rattle.std.specs.Prelude.{ℕ, ◌≤◌, map};
ghost use Rattle.std.specs.Ordering.{nat_cmp};
ghost use Rattle.std.specs.Cmp.Lexicographic.{slice_cmp};
ghost use Rattle.std.specs.List.Sorted.{IsStrictlySortedBy};
ghost use Rattle.ja_base.specs.declared.file.File.{File};
ghost use Rattle.ja_assembly.specs.Unwritable.{IsWritable};
ghost use Rattle.ja_generator.specs.Made.{class_by, made_files};

/// Each item of a made class can be written in a class file that the analyser reads.
pub fn law_writable()
    ensures { (x i : ℕ) → IsWritable (class_by x i) }
{}

/// Each made file comes before the next one in the order of bytes of their names, so no two have one name.
pub fn law_names_ascend()
    ensures { (number classes : ℕ) → classes ≤ 10000 → IsStrictlySortedBy (slice_cmp nat_cmp) (map (λ (file : File). file.name) (made_files number classes)) }
{}
