//! The typing rules by name.

ghost use Rattle.std.specs.Prelude.{◌≡◌};
ghost use Rattle.sc_typing.specs.Numbers as numbers;

/// A typing rule, named after what it is on.
#[derive(Clone, Copy, Debug, PartialEq, Eq)]
pub enum Rule {
    /// No name is declared twice in one scope.
    DeclaredOnce,
    /// Each used name is declared.
    Declared,
    /// No name of the library is declared.
    LibraryName,
    /// `splitc_main` has a definition without parameters, with result int or void.
    Main,
    /// A prototype agrees with a definition of its name, and each parameter of a definition has a name.
    Prototype,
    /// The name of a function stands only in a call, and a called name is a function.
    Called,
    /// An object has as many indices as it may.
    Indices,
    /// An index is an int.
    Index,
    /// Operands of arithmetic and of `<`, `<=`, `>` and `>=` are ints.
    Ints,
    /// Operands of `==` and `!=` are two ints, or the type of one fits the pointer type of the other.
    Comparison,
    /// Operands of `+` and `-` are two ints, or a pointer and an int.
    Sum,
    /// What is tested is an int or a pointer.
    Test,
    /// The operand of `*`, and what is indexed, is a pointer or an array.
    Pointer,
    /// The operand of `&` is a memory place.
    Address,
    /// The left side of `=` is a place, and the right side fits its type.
    Assignment,
    /// What a compound assignment, `++` or `--` sets is a place of a type that it may set, and the right side an int.
    Update,
    /// `:=` puts a value into a global place, or gets that of one.
    SplitAssignment,
    /// `:-` puts a value into a global place.
    Store,
    /// A call has as many arguments as parameters, and each fits.
    Arguments,
    /// `return` has a value that fits exactly where the result is not void.
    Return,
    /// `break` and `continue` stand in a loop.
    Loop,
    /// A format is the first argument of `printf`, and an int argument follows for each `%d` in it.
    Format,
    /// The functions of the library have the arguments that they want.
    LibraryArguments,
    /// Void values, the arms of `?:`, casts, and the name and bound of `for_my_1d` are used as they may be.
    Use,
}

impl Rule {
    /// The rule's number, from 1 to 24, under which a refusal names it.
    pub fn number(self) -> u32
        ensures { result ≡ numbers.rule_number self }
    {
        match self {
            Rule::DeclaredOnce => 1,
            Rule::Declared => 2,
            Rule::LibraryName => 3,
            Rule::Main => 4,
            Rule::Prototype => 5,
            Rule::Called => 6,
            Rule::Indices => 7,
            Rule::Index => 8,
            Rule::Ints => 9,
            Rule::Comparison => 10,
            Rule::Sum => 11,
            Rule::Test => 12,
            Rule::Pointer => 13,
            Rule::Address => 14,
            Rule::Assignment => 15,
            Rule::Update => 16,
            Rule::SplitAssignment => 17,
            Rule::Store => 18,
            Rule::Arguments => 19,
            Rule::Return => 20,
            Rule::Loop => 21,
            Rule::Format => 22,
            Rule::LibraryArguments => 23,
            Rule::Use => 24,
        }
    }
}
