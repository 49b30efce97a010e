//! A gate of many operands as gates of few.

ghost use Rattle.std.specs.Prelude.{◌≡◌};
ghost use Rattle.logic_four.specs.declared.Kind.TheVariants.{Nand, Nor, Xnor, Not};
ghost use Rattle.logic_four.specs.Folds.{takes_many, base_kind, lone_kind, JoinsTwo, JoinsFront, JoinsParts, JoinsGroups, AnswersOne, IgnoresMore, Inverts};

use crate::Kind;

/// Whether a gate of this kind may have any number of operands, as far as `allows` goes.
pub fn takes_many(kind: Kind) -> bool
    ensures { result ≡ takes_many kind }
{
    match kind {
        Kind::Not | Kind::Buf | Kind::Tri => false,
        _ => true,
    }
}

/// The kind that joins some of the operands of a gate of this kind to one. The gate itself is then
/// of its own kind over what was joined.
pub fn base_kind(kind: Kind) -> Kind
    ensures { result ≡ base_kind kind }
{
    match kind {
        Kind::Nand => Kind::And,
        Kind::Nor => Kind::Or,
        Kind::Xnor => Kind::Xor,
        Kind::Not => Kind::Buf,
        base => base,
    }
}

/// The kind that answers for an operand that stands twice what this kind answers for it alone.
pub fn lone_kind(kind: Kind) -> Kind
    ensures { result ≡ lone_kind kind }
{
    match kind {
        Kind::And | Kind::Or | Kind::Xor => Kind::Buf,
        Kind::Nand | Kind::Nor | Kind::Xnor => Kind::Not,
        same => same,
    }
}

/// Laws: a gate of many operands answers what gates of few answer that join them. It does nothing.
pub fn fold_laws()
    ensures two { JoinsTwo }
    ensures front { JoinsFront }
    ensures parts { JoinsParts }
    ensures groups { JoinsGroups }
    ensures one { AnswersOne }
    ensures more { IgnoresMore }

    // The inverted kinds.
    ensures nand { Inverts Nand }
    ensures nor { Inverts Nor }
    ensures xnor { Inverts Xnor }
    ensures not { Inverts Not }
{}
