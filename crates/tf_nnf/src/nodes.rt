ghost use Rattle.std.specs.Prelude.{◌≡◌, ◌+◌};
ghost use Rattle.std.specs.List.{sum_by};
ghost use Rattle.enc_base.specs.Counts.{in_64_bits};
ghost use Rattle.tf_nnf.specs.Nodes.{term_nodes, IsCounted, AreCounted};

use tf_core::{Formula, Term};

/// How many nodes the normal form of a formula has, and that of its negation: in 64 bits, the
/// greatest number standing for all that are larger.
#[derive(Clone, Copy)]
pub struct Nodes {
    pub positive: u64,
    pub negative: u64,
}

/// Both counts of a formula. Neither form is made, and each node is visited once.
#[cycle(count)]
pub fn count(formula: &Formula) -> Nodes
    ensures { IsCounted formula.now result.positive result.negative }
{
    match formula {
        Formula::True => alike(1),
        Formula::False => alike(1),
        Formula::Atom(_, _, terms) => alike(count_terms(terms.as_slice()).saturating_add(1)),
        Formula::Equal(_, left, right) => alike(joined(count_term(left), count_term(right))),
        Formula::Not(a) => negated(count(a.get())),
        Formula::And(parts) => one_more(count_all(parts.as_slice())),
        Formula::Or(parts) => one_more(count_all(parts.as_slice())),
        Formula::Implies(a, b) => implication(count(a.get()), count(b.get())),
        Formula::If(a, b) => implication(count(b.get()), count(a.get())),
        Formula::Iff(a, b) => equivalence(count(a.get()), count(b.get())),
        Formula::Xor(a, b) => equivalence(count(a.get()), count(b.get())),
        Formula::Nand(a, b) => denial(count(a.get()), count(b.get())),
        Formula::Nor(a, b) => denial(count(a.get()), count(b.get())),
        Formula::ForAll(_, body) => one_more(count(body.get())),
        Formula::Exists(_, body) => one_more(count(body.get())),
    }
}

// both counts of a list of formulas, summed
#[cycle(count)]
fn count_all(parts: &[Formula]) -> Nodes
    ensures { AreCounted parts.now result.positive result.negative }
{
    let mut positive = 0u64;
    let mut negative = 0u64;
    for part in parts {
        let nodes = count(part);
        positive = positive.saturating_add(nodes.positive);
        negative = negative.saturating_add(nodes.negative);
    }
    Nodes { positive, negative }
}

// how many nodes a term has
#[cycle(count_term)]
fn count_term(term: &Term) -> u64
    ensures { result ≡ in_64_bits (term_nodes term.now) }
{
    match term {
        Term::Var(_) => 1,
        Term::Apply(_, _, terms) => count_terms(terms.as_slice()).saturating_add(1),
    }
}

// how many nodes a list of terms has
#[cycle(count_term)]
fn count_terms(terms: &[Term]) -> u64
    ensures { result ≡ in_64_bits (sum_by term_nodes terms.now) }
{
    let mut nodes = 0u64;
    for term in terms {
        let more = count_term(term);
        nodes = nodes.saturating_add(more);
    }
    nodes
}

// a formula whose two forms have the same number of nodes
fn alike(nodes: u64) -> Nodes
    ensures positive { result.positive ≡ nodes }
    ensures negative { result.negative ≡ nodes }
{
    Nodes {
        positive: nodes,
        negative: nodes,
    }
}

// a node over two parts
fn joined(left: u64, right: u64) -> u64
    ensures { result ≡ in_64_bits (1 + (left + right)) }
{
    left.saturating_add(right).saturating_add(1)
}

fn one_more(nodes: Nodes) -> Nodes
    ensures positive { result.positive ≡ in_64_bits (1 + nodes.positive) }
    ensures negative { result.negative ≡ in_64_bits (1 + nodes.negative) }
{
    Nodes {
        positive: nodes.positive.saturating_add(1),
        negative: nodes.negative.saturating_add(1),
    }
}

fn negated(nodes: Nodes) -> Nodes
    ensures positive { result.positive ≡ nodes.negative }
    ensures negative { result.negative ≡ nodes.positive }
{
    Nodes {
        positive: nodes.negative,
        negative: nodes.positive,
    }
}

fn implication(a: Nodes, b: Nodes) -> Nodes
    ensures positive { result.positive ≡ in_64_bits (1 + (a.negative + b.positive)) }
    ensures negative { result.negative ≡ in_64_bits (1 + (a.positive + b.negative)) }
{
    Nodes {
        positive: joined(a.negative, b.positive),
        negative: joined(a.positive, b.negative),
    }
}

fn denial(a: Nodes, b: Nodes) -> Nodes
    ensures positive { result.positive ≡ in_64_bits (1 + (a.negative + b.negative)) }
    ensures negative { result.negative ≡ in_64_bits (1 + (a.positive + b.positive)) }
{
    Nodes {
        positive: joined(a.negative, b.negative),
        negative: joined(a.positive, b.positive),
    }
}

// each part stands in both forms once in its own form and once in that of its negation
fn equivalence(a: Nodes, b: Nodes) -> Nodes
    ensures positive { result.positive ≡ in_64_bits (3 + ((a.positive + a.negative) + (b.positive + b.negative))) }
    ensures negative { result.negative ≡ in_64_bits (3 + ((a.positive + a.negative) + (b.positive + b.negative))) }
{
    let first = joined(a.positive, a.negative);
    let second = joined(b.positive, b.negative);
    alike(joined(first, second))
}
