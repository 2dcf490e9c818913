// The exception classes of the language.
ghost use Rattle.std.specs.Prelude.{◌≡◌};
ghost use Rattle.op_work.specs.Exceptions.{class_number};

/// An exception class of the language (The Python Language Reference 3, section 4.3, and its library's "Built-in Exceptions").
#[derive(Clone, Copy)]
pub enum Exception {
    /// The class of all exceptions.
    Exception,
    /// Faults of arithmetic.
    ArithmeticError,
    /// A division by zero.
    ZeroDivisionError,
    /// An integer out of range.
    OverflowError,
    /// An index or key that is not there.
    LookupError,
    /// An index that is out of range.
    IndexError,
    /// A key that a dictionary does not have.
    KeyError,
    /// A name that nothing binds.
    NameError,
    /// A local name that is not set.
    UnboundLocalError,
    /// A wrong kind of value or number of arguments.
    TypeError,
    /// A value that does not fit.
    ValueError,
    /// An attribute that is not there.
    AttributeError,
    /// A fault of no other class.
    RuntimeError,
    /// What is not in this profile.
    NotImplementedError,
    /// What is nested too deep.
    RecursionError,
    /// A fault of a device or file.
    OSError,
    /// A file that is not there.
    FileNotFoundError,
    /// The end of the input.
    EOFError,
    /// An assertion that does not hold.
    AssertionError,
}

impl Exception {
    /// The number of the class, from 0.
    pub fn number(self) -> u64
        ensures { result ≡ class_number self }
    {
        match self {
            Exception::Exception => 0,
            Exception::ArithmeticError => 1,
            Exception::ZeroDivisionError => 2,
            Exception::OverflowError => 3,
            Exception::LookupError => 4,
            Exception::IndexError => 5,
            Exception::KeyError => 6,
            Exception::NameError => 7,
            Exception::UnboundLocalError => 8,
            Exception::TypeError => 9,
            Exception::ValueError => 10,
            Exception::AttributeError => 11,
            Exception::RuntimeError => 12,
            Exception::NotImplementedError => 13,
            Exception::RecursionError => 14,
            Exception::OSError => 15,
            Exception::FileNotFoundError => 16,
            Exception::EOFError => 17,
            Exception::AssertionError => 18,
        }
    }
}
