// The laws of the typing rules.
ghost use Rattle.std.specs.Prelude.{◌≡◌};
ghost use Rattle.expr_rules.specs.Laws.{EachTerm, OneNode, OneRefusal, NotBoth, NodesComputed, RefusalsComputed, Covering, NumberedSo};
ghost use Rattle.expr_rules.specs.Laws.{CallsComputed, NoCallsComputed, OverlapComputed, WritingComputed, TwiceComputed, MeetingSo};
ghost use Rattle.expr_rules.specs.Laws.{EnoughComputed, UnknownComputed};
ghost use Rattle.expr_rules.specs.Examples.{Holds, HoldsIn};
ghost use Rattle.expr_rules.specs.EdgeRows.{operands_rows, edge, edges_rows};
ghost use Rattle.expr_rules.specs.NodeRows.{node_answers, expected_nodes, constant_answers, expected_constants};
ghost use Rattle.expr_rules.specs.NodeRows.{index_answers, expected_indexes};
ghost use Rattle.expr_rules.specs.OperatorRows.{literals_rows, names_rows, operators_rows};
ghost use Rattle.expr_rules.specs.CallRows.{calls_rows, built_in_rows, hidden_rows};
ghost use Rattle.expr_rules.specs.ValueRows.{paths_rows, constructions_rows, choices_rows};

/// Each term is typed in one way, or refused in one way, and never both.
pub fn one_typing()
    ensures each { EachTerm }
    ensures node { OneNode }
    ensures refusal { OneRefusal }
    ensures apart { NotBoth }
{}

/// The rules and their computation say the same: it gives the node that stands for a term, and refuses with the code and at the
/// place that the rules name.
pub fn typing_computed()
    ensures nodes { NodesComputed }
    ensures refusals { RefusalsComputed }
{}

/// The nodes of what stands for a term are numbered one by one in order of text, from the first number up to the next one.
pub fn nodes_numbered()
    ensures { NumberedSo }
{}

/// Labels are found to cover the numbers from one to another exactly where each of these is a value of some label.
pub fn labels_cover()
    ensures { Covering }
{}

/// What a call means, which arguments can be written and overlap, which labels come twice and are enough, and which names mean
/// nothing: what is said in words of the subject is what is computed.
pub fn calls_computed()
    ensures calls { CallsComputed }
    ensures none { NoCallsComputed }
    ensures overlap { OverlapComputed }
    ensures writing { WritingComputed }
    ensures twice { TwiceComputed }
    ensures meeting { MeetingSo }
    ensures enough { EnoughComputed }
    ensures unknown { UnknownComputed }
{}

/// What is said of small terms under the same declarations.
pub fn examples()
    ensures literals { Holds literals_rows }
    ensures names { Holds names_rows }
    ensures operators { Holds operators_rows }
    ensures calls { Holds calls_rows }
    ensures built_in { Holds built_in_rows }
    ensures hidden { Holds hidden_rows }
    ensures paths { Holds paths_rows }
    ensures constructions { Holds constructions_rows }
    ensures choices { Holds choices_rows }
    ensures operands { Holds operands_rows }
    ensures edges { HoldsIn edge edges_rows }
    ensures constants { constant_answers ≡ expected_constants }
    ensures nodes { node_answers ≡ expected_nodes }
    ensures indexes { index_answers ≡ expected_indexes }
{}
