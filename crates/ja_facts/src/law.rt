ghost use Rattle.std.specs.Prelude.{◌≡◌, ◌++◌, [], ◌∷◌, List, Bool, true, false, ℕ, suc, ◌↔◌, IsTrue, codes, map};
ghost use Rattle.ja_base.specs.declared.java_type.Kind.{Kind};
ghost use Rattle.ja_ir.specs.declared.program.Parts.{Parts};
ghost use Rattle.ja_ir.specs.declared.op.Op.TheVariants.{Load};
ghost use Rattle.ja_ir.specs.Lookup.{OpAt};
ghost use Rattle.ja_facts.specs.Least.{Least, Iterate, IsSolution};
ghost use Rattle.ja_facts.specs.ClassSets.{Fact as ClassFact, Spans, Rule as ClassRule};
ghost use Rattle.ja_facts.specs.Held.{Fact as HeldFact, Rule as HeldRule};
ghost use Rattle.ja_facts.specs.Sharing.{Fact as HeapFact, Rule as HeapRule, PairRule, EffectRule, IsPair, IsEffect};
ghost use Rattle.ja_facts.specs.Reaching.{Fact as ReachFact, Rule as ReachRule};
ghost use Rattle.ja_facts.specs.Analyses.{Classes, Helds, Heaps, Reaches, analyses_of};
ghost use Rattle.ja_facts.specs.Held.{OfField};
ghost use Rattle.ja_facts.specs.Slots.{Local, OnStack};
ghost use Rattle.ja_facts.specs.Formulas.{Assignment, IsNormalEnd};
ghost use Rattle.ja_facts.specs.ClassTables.{ClassTable, empty_classes};
ghost use Rattle.ja_facts.specs.FactTables.{GraphTable, HeldTable, empty_graph, empty_held, empty_pairs, empty_effects, empty_reach};
ghost use Rattle.ja_facts.specs.Told.{TellsSets, TellsGraph, TellsHeld, TellsHeap, TellsReach, IsKeptSets, IsKeptGraph, IsKeptReach};
ghost use Rattle.ja_ir.specs.declared.entry.Entry.{Entry};
ghost use Rattle.ja_facts.specs.MarkedPositions.{MarkMorePositions, with_entries};
ghost use Rattle.ja_facts.specs.Equations.{Fact, Rule, Rules, Taints, Context, At, Stored, Threw, Normal, IsWarned};
ghost use Rattle.ja_facts.specs.Example.{example, nothing, example_site, only_lowest, clean_return, tainted_throw};
ghost use Rattle.ja_facts.specs.Verdict.{AreVerdicts, report_text, total_text, printed, site_line};

/// The least solution of the rules of class sets is one, and so are those of held cells, of pairs and
/// effects, of reachability and, for each category of marks, of the equations of taint, each for the
/// least solutions of those that its rules speak of.
pub fn law_least_is_solution()
    ensures classes { (p : Parts) → IsSolution (ClassRule p) (Classes p) }
    ensures held { (p : Parts) → IsSolution (HeldRule p (Classes p)) (Helds p) }
    ensures sharing { (p : Parts) → IsSolution (HeapRule p (Classes p)) (Heaps p) }
    ensures reaching { (p : Parts) → IsSolution (ReachRule p (Classes p) (Heaps p)) (Reaches p) }
    ensures equations { (p : Parts) (c : ℕ) → IsSolution (Rules p c) (Taints p c) }
{}

/// Each of these least solutions lies below each set that a test tells and in which its rules hold.
pub fn law_least_is_below()
    ensures classes { (p : Parts) (set : ClassFact → Bool) → IsSolution (ClassRule p) (λ f. IsTrue (set f)) → (f : ClassFact) → Classes p f → IsTrue (set f) }
    ensures held { (p : Parts) (set : HeldFact → Bool) → IsSolution (HeldRule p (Classes p)) (λ f. IsTrue (set f)) → (f : HeldFact) → Helds p f → IsTrue (set f) }
    ensures sharing { (p : Parts) (set : HeapFact → Bool) → IsSolution (HeapRule p (Classes p)) (λ f. IsTrue (set f)) → (f : HeapFact) → Heaps p f → IsTrue (set f) }
    ensures reaching { (p : Parts) (set : ReachFact → Bool) → IsSolution (ReachRule p (Classes p) (Heaps p)) (λ f. IsTrue (set f)) → (f : ReachFact) → Reaches p f → IsTrue (set f) }
    ensures equations { (p : Parts) (c : ℕ) (set : Fact → Bool) → IsSolution (Rules p c) (λ f. IsTrue (set f)) → (f : Fact) → Taints p c f → IsTrue (set f) }
{}

/// A report of a program without sites is that without their lines.
pub fn law_report_without_sites()
    ensures { (p : Parts) (flags : List Bool) → p.sites ≡ [] → report_text p flags ≡ total_text p flags }
{}

/// A name of a letter, a blank and a backslash prints so.
pub fn law_name_prints()
    ensures { printed (codes "a \\") ≡ codes "a\\x20\\x5c" }
{}

/// In the small program, the equations give the entry's context, the tainted text that its source
/// pushes, the taint that is stored into the field and read again, the throw that leaves with it, and
/// the return of the class initialiser. Its sink is warned, in this line of the report, and in this one
/// where the category has a name.
pub fn law_example()
    ensures context { Taints example 0 (Context 0 nothing) }
    ensures pushed { Taints example 0 (At 0 1 nothing only_lowest) }
    ensures stored { Taints example 0 (Stored (OfField 0)) }
    ensures read { Taints example 0 (At 0 3 nothing only_lowest) }
    ensures threw { Taints example 0 (Threw 0 nothing tainted_throw) }
    ensures returned { Taints example 0 (Normal 1 nothing clean_return) }
    ensures warned { AreVerdicts example (Taints example) (true ∷ []) }
    ensures line { site_line example example_site true ≡ codes "warned A.main()V 9 demo/Taint.sink(Ljava/lang/String;)V\n" }
    ensures named { site_line (record example { categories = codes "sql" ∷ codes "page" ∷ [] }) (record example_site { category = 1 }) true ≡ codes "warned A.main()V 9 demo/Taint.sink(Ljava/lang/String;)V in page\n" }
{}

/// The normal end of a load moves the truth with the value.
pub fn law_load_moves()
    ensures { (p : Parts) (m i l height : ℕ) (kind : Kind) (b after : Assignment) → OpAt p m i (Load kind l) height → IsNormalEnd p (analyses_of p) m i b after → after.slot (OnStack height) ≡ b.slot (Local l) }
{}

/// A round of the rules of class sets keeps what the round before it gave.
pub fn law_rounds_add()
    ensures { (p : Parts) (n : ℕ) (f : ClassFact) → Iterate (ClassRule p) n f → Iterate (ClassRule p) (suc n) f }
{}

/// The class sets and the call graph of a program as they are made tell nothing, but that an object of
/// each token leads to itself.
pub fn law_empty_tells_nothing()
    ensures sets { (p : Parts) (f : ClassFact) → TellsSets p (empty_classes p) f → (t : ℕ) × (f ≡ Spans t t) }
    ensures graph { (p : Parts) (f : ClassFact) → TellsGraph p (empty_graph p) f → ⊥ }
{}

/// Where the entries of the program of one category mark more positions, the equations lose no fact, at
/// the same class sets, held cells, pairs, effects and reachability.
pub fn law_more_positions_lose_nothing()
    ensures { (p : Parts) (entries : List Entry) → MarkMorePositions p.entries entries → (f : Fact) → Least (Rule p (analyses_of p)) f → Least (Rule (with_entries p entries) (analyses_of p)) f }
{}

/// The least pairs for the effects of the least joint solution are its pairs, and the least effects for
/// its pairs are its effects.
pub fn law_joint_is_fixed()
    ensures pairs { (p : Parts) (f : HeapFact) → IsPair f → Least (PairRule p (Classes p) (Heaps p)) f ↔ Heaps p f }
    ensures effects { (p : Parts) (f : HeapFact) → IsEffect f → Least (EffectRule p (Classes p) (Heaps p)) f ↔ Heaps p f }
{}

/// Held cells, pairs, effects and reachability of a program as they are made tell nothing.
pub fn law_empty_heaps_tell_nothing()
    ensures held { (p : Parts) (f : HeldFact) → TellsHeld p (empty_held p) f → ⊥ }
    ensures heaps { (p : Parts) (f : HeapFact) → TellsHeap p (Classes p) (empty_pairs p) (empty_effects p) f → ⊥ }
    ensures reach { (p : Parts) (f : ReachFact) → TellsReach p (empty_reach p) f → ⊥ }
{}

/// Tables tell no fact of a kind that they do not keep.
pub fn law_tables_tell_kept()
    ensures sets { (p : Parts) (sets : ClassTable) (f : ClassFact) → TellsSets p sets f → IsKeptSets f }
    ensures graph { (p : Parts) (graph : GraphTable) (f : ClassFact) → TellsGraph p graph f → IsKeptGraph f }
    ensures reach { (p : Parts) (reach : List (List (List (List Bool)))) (f : ReachFact) → TellsReach p reach f → IsKeptReach f }
{}

/// Where no fact holds no site is warned: the verdicts are flags that are all false.
pub fn law_nothing_warns()
    ensures { (p : Parts) → AreVerdicts p (λ c f. ⊥) (map (λ site. false) p.sites) }
{}
