//! The operators of the tree. Each is one punctuator, and has that punctuator's number.

ghost use Rattle.std.specs.Prelude.{◌≡◌, ◌≢◌, IfSome, IfNone};
ghost use Rattle.c_ast.specs.Operators.{unary_number, binary_number, assign_number, step_number};

/// An operator before its operand (C11 6.5.3), other than `++`, `--` and `sizeof`.
#[derive(Clone, Copy, Debug, PartialEq, Eq)]
pub enum UnaryOperator {
    /// `&`
    AddressOf = 12,
    /// `*`
    Dereference = 13,
    /// `+`
    Plus = 14,
    /// `-`
    Minus = 15,
    /// `~`
    Complement = 16,
    /// `!`
    Not = 17,
}

impl UnaryOperator {
    /// The number of its punctuator.
    pub fn number(self) -> u8
        ensures { result ≡ unary_number self }
    {
        self as u8
    }

    /// The operator whose punctuator has a number, if there is one.
    pub fn from_number(number: u8) -> Option<UnaryOperator>
        ensures some { IfSome result (λ o. unary_number o ≡ number) }
        ensures none { IfNone result ((o : UnaryOperator) → unary_number o ≢ number) }
    {
        match number {
            12 => Some(UnaryOperator::AddressOf),
            13 => Some(UnaryOperator::Dereference),
            14 => Some(UnaryOperator::Plus),
            15 => Some(UnaryOperator::Minus),
            16 => Some(UnaryOperator::Complement),
            17 => Some(UnaryOperator::Not),
            _ => None,
        }
    }
}

/// An operator between two operands (C11 6.5.5 to 6.5.14).
#[derive(Clone, Copy, Debug, PartialEq, Eq)]
pub enum BinaryOperator {
    /// `&`
    BitAnd = 12,
    /// `*`
    Multiply = 13,
    /// `+`
    Add = 14,
    /// `-`
    Subtract = 15,
    /// `/`
    Divide = 18,
    /// `%`
    Remainder = 19,
    /// `<<`
    ShiftLeft = 20,
    /// `>>`
    ShiftRight = 21,
    /// `<`
    Less = 22,
    /// `>`
    Greater = 23,
    /// `<=`
    LessEqual = 24,
    /// `>=`
    GreaterEqual = 25,
    /// `==`
    Equal = 26,
    /// `!=`
    NotEqual = 27,
    /// `^`
    BitXor = 28,
    /// `|`
    BitOr = 29,
    /// `&&`
    And = 30,
    /// `||`
    Or = 31,
}

impl BinaryOperator {
    /// The number of its punctuator.
    pub fn number(self) -> u8
        ensures { result ≡ binary_number self }
    {
        self as u8
    }

    /// The operator whose punctuator has a number, if there is one.
    pub fn from_number(number: u8) -> Option<BinaryOperator>
        ensures some { IfSome result (λ o. binary_number o ≡ number) }
        ensures none { IfNone result ((o : BinaryOperator) → binary_number o ≢ number) }
    {
        match number {
            12 => Some(BinaryOperator::BitAnd),
            13 => Some(BinaryOperator::Multiply),
            14 => Some(BinaryOperator::Add),
            15 => Some(BinaryOperator::Subtract),
            18 => Some(BinaryOperator::Divide),
            19 => Some(BinaryOperator::Remainder),
            20 => Some(BinaryOperator::ShiftLeft),
            21 => Some(BinaryOperator::ShiftRight),
            22 => Some(BinaryOperator::Less),
            23 => Some(BinaryOperator::Greater),
            24 => Some(BinaryOperator::LessEqual),
            25 => Some(BinaryOperator::GreaterEqual),
            26 => Some(BinaryOperator::Equal),
            27 => Some(BinaryOperator::NotEqual),
            28 => Some(BinaryOperator::BitXor),
            29 => Some(BinaryOperator::BitOr),
            30 => Some(BinaryOperator::And),
            31 => Some(BinaryOperator::Or),
            _ => None,
        }
    }
}

/// An operator of compound assignment (C11 6.5.16.2).
#[derive(Clone, Copy, Debug, PartialEq, Eq)]
pub enum AssignOperator {
    /// `+=`
    Add = 35,
    /// `-=`
    Subtract = 36,
    /// `*=`
    Multiply = 37,
    /// `/=`
    Divide = 38,
    /// `%=`
    Remainder = 39,
    /// `<<=`
    ShiftLeft = 40,
    /// `>>=`
    ShiftRight = 41,
    /// `&=`
    BitAnd = 42,
    /// `^=`
    BitXor = 43,
    /// `|=`
    BitOr = 44,
}

impl AssignOperator {
    /// The number of its punctuator.
    pub fn number(self) -> u8
        ensures { result ≡ assign_number self }
    {
        self as u8
    }

    /// The operator whose punctuator has a number, if there is one.
    pub fn from_number(number: u8) -> Option<AssignOperator>
        ensures some { IfSome result (λ o. assign_number o ≡ number) }
        ensures none { IfNone result ((o : AssignOperator) → assign_number o ≢ number) }
    {
        match number {
            35 => Some(AssignOperator::Add),
            36 => Some(AssignOperator::Subtract),
            37 => Some(AssignOperator::Multiply),
            38 => Some(AssignOperator::Divide),
            39 => Some(AssignOperator::Remainder),
            40 => Some(AssignOperator::ShiftLeft),
            41 => Some(AssignOperator::ShiftRight),
            42 => Some(AssignOperator::BitAnd),
            43 => Some(AssignOperator::BitXor),
            44 => Some(AssignOperator::BitOr),
            _ => None,
        }
    }
}

/// A step by one: `++` or `--`, before or after its operand (C11 6.5.2.4, 6.5.3.1).
#[derive(Clone, Copy)]
pub enum Step {
    /// `++e`
    PreIncrement,
    /// `--e`
    PreDecrement,
    /// `e++`
    PostIncrement,
    /// `e--`
    PostDecrement,
}

impl Step {
    /// From 0 to 3, in the order of the variants.
    pub fn number(self) -> u8
        ensures { result ≡ step_number self }
    {
        self as u8
    }
}
