ghost use Rattle.std.specs.Prelude.{◌≡◌, ℕ, List};
ghost use Rattle.ja_ir.specs.declared.head.ClassHead.{ClassHead};
ghost use Rattle.ja_ir.specs.declared.class.ClassInfo.{ClassInfo};
ghost use Rattle.ja_ir.specs.declared.class.Field.{Field};
ghost use Rattle.ja_ir.specs.declared.entry.Entry.{Entry};
ghost use Rattle.ja_lib.specs.Content.{Content};
ghost use Rattle.ja_heads.specs.Classes.{AreClassInfos};
ghost use Rattle.ja_heads.specs.Fields.{AreFields};
ghost use Rattle.ja_heads.specs.Entries.{AreEntries};

/// The heads of classes, the names of their files and a table have one outline.
pub fn law_one_heads()
    ensures classes { (heads : List ClassHead) (files : List (List ℕ)) (a b : List ClassInfo) → AreClassInfos heads files a → AreClassInfos heads files b → a ≡ b }
    ensures fields { (heads : List ClassHead) (a b : List Field) → AreFields heads a → AreFields heads b → a ≡ b }
    ensures entries { (heads : List ClassHead) (content : Content) (a b : List Entry) → AreEntries heads content a → AreEntries heads content b → a ≡ b }
{}
