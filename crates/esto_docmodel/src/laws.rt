//! Laws of documents and patterns.
ghost use Rattle.std.specs.Prelude.{ℕ, List};
ghost use Rattle.esto_term.specs.declared.term.Term.{Term};
ghost use Rattle.esto_semantics.specs.DocumentRules.{document_rules_2};
ghost use Rattle.esto_semantics.specs.Rules.{AreMet};
ghost use Rattle.esto_semantics.specs.Maps.{IsConstant};
ghost use Rattle.esto_docmodel.specs.Encodings.{facts_of};
ghost use Rattle.esto_docmodel.specs.Forests.{Node};
ghost use Rattle.esto_docmodel.specs.Meanings.{AgreeAfter, AreFresh, MeansTheSame, HaveRootsOnTop};
ghost use Rattle.esto_docmodel.specs.Patterns.{Entries, Matches, Mentions};
ghost use Rattle.esto_docmodel.specs.Rising.{AreRising};
ghost use Rattle.esto_docmodel.specs.Shapes.{documents, entries_of};
ghost use Rattle.esto_docmodel.specs.declared.pattern.Entry.{Entry};
ghost use Rattle.esto_docmodel.specs.declared.tree.Tree.{Tree};

/// A law: over the facts of any documents, the matches of a pattern's atoms, cut down to the terms that the pattern has
/// after `:`, are exactly the matches by the pattern's own meaning in one of the documents. The root variable and the
/// pattern's variables are below `next`, from which the nodes of path steps are numbered, and the root variable is none of
/// the pattern's.
pub fn encodings_mean_the_same()
    ensures { (base first : ℕ) (trees : List Tree) (entries : List Entry) (r next : ℕ)
        → AreFresh (entries_of entries) r next
        → MeansTheSame base first (documents trees) (entries_of entries) r next }
{}

/// A law: the facts of any documents whose fields rise, as those of a `Fields` do, meet the eight rules of documents; and no
/// node that stands below another is a document.
pub fn documents_meet_the_rules()
    ensures rules { (base first : ℕ) (trees : List Tree) → AreRising trees
        → AreMet (facts_of base first (documents trees)) (document_rules_2 base) }
    ensures roots { (base first : ℕ) (trees : List Tree)
        → HaveRootsOnTop base (facts_of base first (documents trees)) }
{}

/// A law: under a map that matches a pattern in a node, each term after `:` goes to a text; and each map that agrees with
/// it on these terms matches the pattern there too.
pub fn matches_rest_on_their_terms()
    ensures texts { (m : Term → Term) (entries : Entries) (start : Node) (term : Term)
        → Matches m entries start → Mentions entries term → IsConstant (m term) }
    ensures agree { (m other : Term → Term) (entries : Entries) (start : Node)
        → AgreeAfter entries m other → Matches m entries start → Matches other entries start }
{}
