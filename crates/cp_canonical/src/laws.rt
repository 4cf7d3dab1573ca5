//! What holds of every canonical form.

ghost use Rattle.std.specs.Prelude.{◌≡◌, ◌↔◌, ◌∷◌, [], ℕ, List};
ghost use Rattle.cp_words.specs.Limits.{Bounds};
ghost use Rattle.cp_tree.specs.Node.{Node};
ghost use Rattle.cp_tree.specs.Shaped.{Shaped};
ghost use Rattle.cp_reading.specs.Denotes.{Denotes};
ghost use Rattle.cp_canonical.specs.Canonical.{AreAlike, AreWords, HaveOneForm, IsCanonicalMessage, IsCanonicalOf, IsFormOf};
ghost use Rattle.cp_canonical.specs.Cut.{cut};

/// The words of a tree's canonical form denote that tree, up to what the form cuts.
pub fn form_denotes()
    ensures left { (t : Node) (ws : List ℕ) → Shaped t → IsCanonicalOf t ws → Denotes (ws ∷ []) 0 0 (cut t) }
    ensures same { (t : Node) → AreAlike (cut t) t }
{}

/// Two trees, or two messages, have the same canonical form exactly if they are the same up to what the form cuts.
pub fn one_form()
    ensures trees { (t u : Node) (ws vs : List ℕ) → Shaped t → Shaped u → IsCanonicalOf t ws → IsCanonicalOf u vs → (ws ≡ vs) ↔ AreAlike t u }
    ensures messages { (S T : List (List ℕ)) (limits : Bounds) → AreWords S → AreWords T → HaveOneForm S T limits }
{}

/// A message's canonical form is a canonical message, within the same limits. So it is written again as it is.
pub fn written_again()
    ensures { (S : List (List ℕ)) (limits : Bounds) (ws : List ℕ) → AreWords S → IsFormOf S limits ws → IsCanonicalMessage (ws ∷ []) limits }
{}
