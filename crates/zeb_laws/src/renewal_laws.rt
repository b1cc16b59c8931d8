//! Laws of the commands that check, and that make the registers anew. Each is a function with no code, whose contract is the law.
ghost use Rattle.std.specs.Prelude.{◌≡◌, ◌↔◌, ℕ, IsTrue, List};
ghost use Rattle.zeb_profile.specs.declared.directives.Directive.{Directive};
ghost use Rattle.zeb_profile.specs.Canonical.{canonical_text};
ghost use Rattle.zeb_profile.specs.Indexes.{identifier_pattern};
ghost use Rattle.zeb_profile.specs.Laws.{IsProfile};
ghost use Rattle.zeb_change.specs.Base.{Base};
ghost use Rattle.zeb_change.specs.Conditions.{Conditions};
ghost use Rattle.zeb_image.specs.Holdings.{Holdings, under};
ghost use Rattle.zeb_engine.specs.Answers.{Answer, done};
ghost use Rattle.zeb_engine.specs.Crashes.{Accepts};
ghost use Rattle.zeb_engine.specs.Rules.{same_rule};
ghost use Rattle.zeb_engine.specs.Steps.{Step, holding};
ghost use Rattle.zeb_engine.specs.Transactions.{AsksStore};

use zeb_engine::Command;

/// The canonical texts of two profiles tell one rule for identifiers just where the profiles have one. So what a reindex asks of the text
/// that a register keeps is what it means of profiles: that each kept record has the identifier still that it is kept under.
pub fn a_text_tells_the_rule()
    ensures { (one other : List Directive) → ∥ IsProfile one ∥₁ → ∥ IsProfile other ∥₁
        → IsTrue (same_rule (canonical_text one) (canonical_text other)) ↔
        (identifier_pattern one ≡ identifier_pattern other) }
{}

/// An accepted reindex leaves the databases that were held, with their names, numbers, identifiers and bytes, under the session's profile;
/// an accepted upgrade leaves them under its version. Of a register of the session's version and its profile both are accepted, and leave
/// all as it was.
pub fn the_databases_stay()
    ensures reindexed { (c : Conditions) (before later : Holdings)
        → Step c Command.Reindex before done later
        → (text : List ℕ) × (bases : List Base) × (before ≡ under c.version text bases)
        × (later ≡ holding c bases) }
    ensures upgraded { (c : Conditions) (before later : Holdings)
        → Step c Command.Upgrade before done later
        → (version : List ℕ) × (bases : List Base)
        × (before ≡ under version (canonical_text c.profile) bases) × (later ≡ holding c bases) }
    ensures again { (c : Conditions) (bases : List Base) (answer : Answer) (later : Holdings)
        → Step c Command.Upgrade (holding c bases) answer later → (answer ≡ done)
        × (later ≡ holding c bases) }
    ensures same { (c : Conditions) (bases : List Base) (answer : Answer) (later : Holdings)
        → ∥ IsProfile c.profile ∥₁
        → Step c Command.Reindex (holding c bases) answer later → (answer ≡ done)
        × (later ≡ holding c bases) }
{}

/// A check is accepted of what an accepted command that asks the store has left, a reindex and an upgrade among them. So a check that is
/// refused after one, where neither the store nor the memory failed, tells of a disk that changed, and never of the commands.
pub fn a_check_accepts_what_commands_leave()
    ensures { (c : Conditions) (command : Command) (before later : Holdings) (answer : Answer)
        → AsksStore command
        → Step c command before answer later → Accepts answer
        → Step c Command.Check later done later }
{}
