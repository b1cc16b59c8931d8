//! Laws of the definitions that the contracts cite. Each is a function with no code, whose contract is the law.
ghost use Rattle.std.specs.Prelude.{◌≡◌, ◌≢◌, ◌↔◌, ◌⊎◌, ◌+◌, ◌<◌, ◌≤◌, ℕ, IsUtf8, List, length, true};
ghost use Rattle.std.specs.List.{Contains};
ghost use Rattle.std.specs.List.Sorted.{IsStrictlySortedBy};
ghost use Rattle.sqlite_rules.specs.Lists.{Has};
ghost use Rattle.sqlite.specs.Tree.{Trees};
ghost use Rattle.zeb_marc.specs.Splits.{Split};
ghost use Rattle.zeb_profile.specs.declared.directives.Directive.{Directive};
ghost use Rattle.zeb_profile.specs.Canonical.{canonical_text};
ghost use Rattle.zeb_profile.specs.Indexes.{has_pair, index_names};
ghost use Rattle.zeb_profile.specs.Laws.{IsProfile};
ghost use Rattle.zeb_keys.specs.declared.registers.Register.TheVariants.{Word};
ghost use Rattle.zeb_register.specs.Occurring.{TermIn};
ghost use Rattle.zeb_search.specs.Holds.{TreeHolds};
ghost use Rattle.zeb_engine.specs.Answers.{Answer, changed, refused};
ghost use Rattle.zeb_engine.specs.Counting.{Target, target_list};
ghost use Rattle.zeb_laws.specs.Targets.{target_cmp};
ghost use Rattle.zeb_change.specs.Refused.{damaged, store_failed, out_of_memory, read_fault};
ghost use Rattle.zeb_change.specs.Conditions.{Conditions};
ghost use Rattle.zeb_laws.specs.Counts.{FoldsTo, HasNamesake, IsAccepted, records_in, told};
ghost use Rattle.zeb_engine.specs.Finding.{IsNamed, has_name};
ghost use Rattle.zeb_change.specs.Occurs.{occurs};
ghost use Rattle.zeb_laws.specs.Worked.{word_plan};
ghost use Rattle.zeb_change.specs.Folding.{Progress};
ghost use Rattle.zeb_change.specs.Base.{Base, Kept};
ghost use Rattle.zeb_image.specs.Holdings.{Holdings};
ghost use Rattle.zeb_change.specs.Stored.{IsBase};
ghost use Rattle.zeb_image.specs.Image.{IsImage, IsImageUnder};
ghost use Rattle.zeb_engine.specs.Steps.{Step, changed_by_files, turned};

use zeb_change::Kind;
use zeb_engine::Command;

/// No answer that the definition names is damage, or a failure of the store, of the memory or of a reader, whatever is
/// held and whatever is asked. So such an answer always tells of the machine or of the tables, and never of the command:
/// a register that is what commands left answers no damage.
pub fn no_definition_answers_damage()
    ensures damage { (c : Conditions) (command : Command) (before : Holdings) (answer : Answer)
        (later : Holdings)
        → Step c command before answer later
        → answer ≢ refused damaged }
    ensures store { (c : Conditions) (command : Command) (before : Holdings) (answer : Answer)
        (later : Holdings)
        → Step c command before answer later
        → answer ≢ refused store_failed }
    ensures memory { (c : Conditions) (command : Command) (before : Holdings) (answer : Answer)
        (later : Holdings)
        → Step c command before answer later
        → answer ≢ refused out_of_memory }
    ensures reader { (c : Conditions) (command : Command) (before : Holdings) (answer : Answer)
        (later : Holdings)
        → Step c command before answer later
        → (file : ℕ) → answer ≢ refused (read_fault file) }
{}

/// The definition leaves no choice: whatever is held and whatever is asked, a command has at most one answer, also a find, a
/// scan and a stat, whose answers are not computed but described by the kept records, and at most one thing that is held then. So an
/// answer that a reader works out from the definition is the one that the program gives, unless the store or the memory fails.
pub fn a_command_has_one_answer()
    ensures { (c : Conditions) (command : Command) (before : Holdings) (one other : Answer)
        (left right : Holdings)
        → Step c command before one left
        → Step c command before other right → (one ≡ other) × (left ≡ right) }
{}

/// The definition leaves no command without an answer: whatever is held, whatever is asked and under whatever conditions, there is an
/// answer, and something that is held then. Nothing is asked of what is held, nor of the profile. So with at most one of each there is
/// just one: what a find, a scan, a stat and an analysis answer is described, and no description is one that nothing meets.
pub fn a_command_has_an_answer()
    ensures { (c : Conditions) (command : Command) (before : Holdings)
        → (answer : Answer) × (later : Holdings) × Step c command before answer later }
{}

/// A find of one word without stars holds of a record just where the word itself stands in that index of it: what a pattern matches is
/// then one entry of the register, and so a reader can check a find's answer against the records' texts, without a register in mind.
pub fn a_word_is_found_where_it_stands()
    ensures { (profile : List Directive) (records : List Kept) (index : ℕ) (word : List ℕ) (n : ℕ)
        → IsUtf8 word
        → TreeHolds (occurs profile records) (IsNamed (occurs profile records) (has_name records))
        (word_plan index word) n
        ↔ TermIn (occurs profile records) index Word word n }
{}

/// A stat counts the registers that some line of the profile has as a target: each of them, once, and in order, by the number of the index
/// and then words, phrases and numbers. So no register is left out of its counts, and none is counted twice.
pub fn a_stat_counts_each_register_once()
    ensures listed { (profile : List Directive) (target : Target)
        → Has (target_list profile) target
        ↔ ((has_pair profile target ≡ true) × (target.0 < length (index_names profile))) }
    ensures rising { (profile : List Directive)
        → IsStrictlySortedBy target_cmp (target_list profile) }
{}

/// The counts of an accepted change add up: they are those of all records of its files, folded into its database. Each record of the
/// files is taken, and counted once, unless an `Adelete` passes it over. As many records are kept as were kept before, with those
/// inserted and without those deleted; and the last number given has risen by just the number of those inserted, so that no number is
/// lost or given twice. So a reader can check a reply against the files and against the database.
pub fn counts_add_up()
    ensures accepted { (c : Conditions) (kind : Kind) (name : List ℕ) (files : List Split)
        (before : Holdings)
        (inserted updated deleted : ℕ)
        → (turned c (changed_by_files c kind name files) before).0 ≡ changed inserted updated
        deleted
        → IsAccepted c kind name files before (turned c
        (changed_by_files c kind name files) before) }
    ensures taken { (c : Conditions) (kind : Kind) (files : List Split) (base : Base) (p : Progress)
        → FoldsTo c kind files base p
        → p.taken ≡ records_in files }
    ensures told { (c : Conditions) (kind : Kind) (files : List Split) (base : Base) (p : Progress)
        → FoldsTo c kind files base p
        → told p ≤ p.taken }
    ensures each { (c : Conditions) (kind : Kind) (files : List Split) (base : Base) (p : Progress)
        → FoldsTo c kind files base p
        → kind ≢ Kind.Adelete → told p ≡ p.taken }
    ensures kept { (c : Conditions) (kind : Kind) (files : List Split) (base : Base) (p : Progress)
        → FoldsTo c kind files base p
        → IsBase c.profile base → length p.base.records + p.deleted ≡ length
        base.records + p.inserted }
    ensures last { (c : Conditions) (kind : Kind) (files : List Split) (base : Base) (p : Progress)
        → FoldsTo c kind files base p
        → p.base.last ≡ base.last + p.inserted }
{}

/// Numbers stay. After an update each record that was kept is kept still, under the number and the identifier that it had,
/// whatever bytes it has now. After any change each kept record either was kept before, under the same number and
/// identifier, or has a number greater than any given before. So a number that a reader has noted never comes to mean
/// another identifier, until the database is dropped or the register begun anew.
pub fn numbers_stay()
    ensures elders { (c : Conditions) (files : List Split) (base : Base) (p : Progress)
        → FoldsTo c Kind.Update files base p
        → (kept : Kept) → Contains base.records kept → HasNamesake p.base.records kept }
    ensures others { (c : Conditions) (kind : Kind) (files : List Split) (base : Base)
        (p : Progress) → FoldsTo c kind files base p
        → (kept : Kept) → Contains p.base.records kept → HasNamesake base.records kept
        ⊎ (base.last < kept.sysno) }
{}

/// Two profiles with one canonical text have the same images. So what a register holds doesn't depend on how its profile is
/// spelled, nor on the `store` line: a session under either profile finds the same held.
pub fn one_text_one_image()
    ensures { (one other : List Directive) → ∥ IsProfile other ∥₁
        → (trees : Trees) (version text : List ℕ) (bases : List Base)
        → text ≡ canonical_text other
        → IsImageUnder one trees version text bases → IsImageUnder other trees version text bases }
{}

/// Tables are the image of one holding at most. So what a register holds is read off its tables alone: its version, its profile's
/// canonical text, its databases, their last numbers and their records.
pub fn an_image_is_of_one_holding()
    ensures { (trees : Trees) (one other : Holdings) → IsImage trees one → IsImage trees other
        → one ≡ other }
{}
