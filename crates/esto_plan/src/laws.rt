//! What steps mean is what the candidate means.
ghost use Rattle.std.specs.Prelude.{◌≡◌, ◌≢◌, ◌↔◌, ◌<◌, ℕ, List, map, length, Contains, AllPairs};
ghost use Rattle.esto_columns.specs.Interned.{AreCodesOf};
ghost use Rattle.esto_semantics.specs.Access.{Patterns};
ghost use Rattle.esto_semantics.specs.Facts.{Database};
ghost use Rattle.esto_semantics.specs.Listed.{candidate};
ghost use Rattle.esto_semantics.specs.Queries.{ConjunctiveQuery, IsAnswerInto};
ghost use Rattle.esto_semantics.specs.Views.{IsFragmentAnswer};
ghost use Rattle.esto_semantics.specs.declared.fact.Value.{Value};
ghost use Rattle.esto_semantics.specs.declared.fact.Value.TheVariants.{Text};
ghost use Rattle.esto_steps.specs.Meaning.{IsResult};
ghost use Rattle.esto_steps.specs.Planned.{AreStepsOf, Fits, IsSafeOrder, ordered};
ghost use Rattle.esto_steps.specs.Rows.{IsRowOf};
ghost use Rattle.esto_steps.specs.Texts.{AreViewRows, HoldSame, AreCoded, IsNumbering, IsSafeQuery};
ghost use Rattle.esto_steps.specs.declared.steps.Steps.{Steps};

/// A law: the results of the steps of a query over fragments are exactly its answers over the coded rows.
pub fn results_are_answers()
    ensures { (texts : List (List ℕ)) (code : List ℕ → ℕ) (patterns : Patterns)
        (query : ConjunctiveQuery) (steps : Steps) (coded : ℕ → List (List ℕ))
        → IsNumbering texts code → AreStepsOf texts patterns query steps
        → Fits query.body (IsRowOf coded) → (row : List ℕ)
        → IsResult (IsRowOf coded) steps row ↔ IsAnswerInto code query (IsRowOf coded) row }
{}

/// A law: where the texts are distinct, the texts of the results are exactly the answers over the rows of texts.
pub fn results_are_answers_in_texts()
    ensures { (texts : List (List ℕ)) (patterns : Patterns) (query : ConjunctiveQuery)
        (steps : Steps) (coded : ℕ → List (List ℕ)) (rows : ℕ → List (List (List ℕ)))
        → AllPairs ◌≢◌ texts → IsSafeQuery query → AreCoded texts coded rows
        → AreStepsOf texts patterns query steps → Fits query.body (IsRowOf coded)
        → (row : List (List ℕ))
        → ((codes : List ℕ) × IsResult (IsRowOf coded) steps codes × AreCodesOf texts codes row)
        ↔ IsAnswerInto (λ text. text) query (IsRowOf rows) row }
{}

/// A law: the texts of the results of the steps of a safe set's order are exactly the answers of the set's candidate
/// over the rows of texts.
pub fn results_are_candidate_answers()
    ensures { (texts : List (List ℕ)) (patterns : Patterns) (plan : ConjunctiveQuery)
        (order : List ℕ) (is_order : IsSafeOrder patterns plan order) (steps : Steps)
        (coded : ℕ → List (List ℕ)) (rows : ℕ → List (List (List ℕ)))
        → AllPairs ◌≢◌ texts → AreCoded texts coded rows
        → AreStepsOf texts patterns (ordered plan order) steps
        → Fits (candidate plan is_order.0).body (IsRowOf coded) → (row : List (List ℕ))
        → ((codes : List ℕ) × IsResult (IsRowOf coded) steps codes × AreCodesOf texts codes row)
        ↔ IsAnswerInto (λ text. text) (candidate plan is_order.0) (IsRowOf rows) row }
{}

/// A law: over a database of which the used fragments hold the view rows, the answers of a query over fragments are
/// exactly its answers over the rows of texts.
pub fn answers_over_databases()
    ensures { (views : List ConjunctiveQuery) (database : Database) (query : ConjunctiveQuery)
        (rows : ℕ → List (List (List ℕ))) → IsSafeQuery query
        → AreViewRows views database query rows → (values : List Value)
        → IsFragmentAnswer views query database values
        ↔ ((row : List (List ℕ)) × (values ≡ map Text row)
        × IsAnswerInto (λ text. text) query (IsRowOf rows) row) }
{}

/// A law: over a database of which the used fragments hold the view rows, the texts of the results of the steps of a
/// safe set's order are exactly the answers of the set's candidate.
pub fn results_over_databases()
    ensures { (texts : List (List ℕ)) (patterns : Patterns) (plan : ConjunctiveQuery)
        (order : List ℕ) (is_order : IsSafeOrder patterns plan order) (steps : Steps)
        (coded : ℕ → List (List ℕ)) (rows : ℕ → List (List (List ℕ)))
        (views : List ConjunctiveQuery) (database : Database)
        → AllPairs ◌≢◌ texts → AreCoded texts coded rows
        → AreStepsOf texts patterns (ordered plan order) steps
        → Fits (candidate plan is_order.0).body (IsRowOf coded)
        → AreViewRows views database (candidate plan is_order.0) rows → (values : List Value)
        → IsFragmentAnswer views (candidate plan is_order.0) database values
        ↔ ((row : List (List ℕ)) × (values ≡ map Text row)
        × ((codes : List ℕ) × IsResult (IsRowOf coded) steps codes
        × AreCodesOf texts codes row)) }
{}

/// A law: the results of steps rest on the rows of those fragments alone that the steps name, read as sets.
pub fn results_rest_on_named_fragments()
    ensures { (steps : Steps) (rows others : ℕ → List (List ℕ)) → HoldSame steps rows others
        → (row : List ℕ)
        → IsResult (IsRowOf rows) steps row ↔ IsResult (IsRowOf others) steps row }
{}

/// A law: where the coded rows have codes of texts alone, so have the results of planned steps.
pub fn results_have_texts()
    ensures { (texts : List (List ℕ)) (patterns : Patterns) (query : ConjunctiveQuery)
        (steps : Steps) (coded : ℕ → List (List ℕ)) → AreStepsOf texts patterns query steps
        → ((fragment : ℕ) (row : List ℕ) → Contains (coded fragment) row
        → (code : ℕ) → Contains row code → code < length texts)
        → (row : List ℕ) → IsResult (IsRowOf coded) steps row
        → (code : ℕ) → Contains row code → code < length texts }
{}
