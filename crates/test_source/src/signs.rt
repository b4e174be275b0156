// Operators as they are written.
use icn_tree::Operator;

// An operator that compares or assigns.
fn comparison_sign(operator: Operator) -> &'static str {
    match operator {
        Operator::Equal => "=",
        Operator::NotEqual => "~=",
        Operator::EqualEqual => "==",
        Operator::NotEqualEqual => "~==",
        Operator::EqualEqualEqual => "===",
        Operator::NotEqualEqualEqual => "~===",
        Operator::Less => "<",
        Operator::LessEqual => "<=",
        Operator::Greater => ">",
        Operator::GreaterEqual => ">=",
        Operator::LessLess => "<<",
        Operator::LessLessEqual => "<<=",
        Operator::GreaterGreater => ">>",
        Operator::GreaterGreaterEqual => ">>=",
        Operator::Assign => ":=",
        Operator::Swap => ":=:",
        Operator::ReversibleAssign => "<-",
        Operator::ReversibleSwap => "<->",
        _ => "none",
    }
}

/// An operator by its characters.
pub fn sign(operator: Operator) -> &'static str {
    match operator {
        Operator::Bang => "!",
        Operator::At => "@",
        Operator::Ampersand => "&",
        Operator::Star => "*",
        Operator::StarStar => "**",
        Operator::Plus => "+",
        Operator::PlusPlus => "++",
        Operator::Minus => "-",
        Operator::MinusMinus => "--",
        Operator::Slash => "/",
        Operator::Percent => "%",
        Operator::Backslash => "\\",
        Operator::Caret => "^",
        Operator::Bar => "|",
        Operator::BarBar => "||",
        Operator::BarBarBar => "|||",
        Operator::Dot => ".",
        Operator::Question => "?",
        Operator::Tilde => "~",
        _ => comparison_sign(operator),
    }
}
