// What a node becomes whose turn it is. It only reads.

ghost use Rattle.pieces.specs.Pieces.{Few, BecameIn};
ghost use Rattle.contraction.specs.Chosen.{OfNode};

use binary::{contract_2, of_if};
use conversions::converted;
use nodes::kinds::{Shape, Sort, row_at};
use pieces::became::Became;
use pieces::values::split;
use unary::contract_1;

// What a node becomes, by its words.
pub fn contract(node: &[u32]) -> Became<'_>
    requires { Few node.now }
    ensures placed { BecameIn result }
    ensures told { OfNode node.now result }
{
    let [word, parts @ ..] = node else {
        return Became::Nothing;
    };
    // The row first, then its sort: behind a pattern of a row in a Some the proof is not told the sort.
    let Some(row) = row_at(*word) else {
        return Became::Nothing;
    };
    let Sort::Term(language) = row.sort else {
        return Became::Nothing;
    };
    match row.shape {
        Shape::Wrong => Became::Raises(word / 256),
        Shape::Operator1(operator) => contract_1(language, operator, node),
        Shape::Operator2(operator) => {
            let (first, second) = split(parts);
            contract_2(language, operator, first, second)
        }
        Shape::If0 => {
            let (test, rest) = split(parts);
            let (second, third) = split(rest);
            of_if(language, test, second, third)
        }
        Shape::Boundary => {
            let (at, value) = split(parts);
            converted(language, at, value)
        }
        _ => Became::Nothing,
    }
}
