// Where a statement stands, as far as it is asked of it.
ghost use Rattle.std.specs.Prelude.{◌≡◌};
ghost use Rattle.py_grammar.specs.ParsedSimple.{around_of};
ghost use Rattle.py_grammar.specs.WellPlaced as spec;

/// Where a statement stands: directly in the script or in a class, or in neither; in a function, a loop, an `except`.
#[derive(Clone, Copy)]
pub struct Around {
    pub at_module_level: bool,
    pub in_class: bool,
    pub in_function: bool,
    pub in_loop: bool,
    pub in_handler: bool,
}

impl Around {
    /// Directly in the script.
    pub fn module() -> Around
        ensures { around_of result ≡ spec.module_level }
    {
        Around {
            at_module_level: true,
            in_class: false,
            in_function: false,
            in_loop: false,
            in_handler: false,
        }
    }

    /// Directly in a class.
    pub fn in_class_suite() -> Around
        ensures { around_of result ≡ spec.in_class_suite }
    {
        Around {
            at_module_level: false,
            in_class: true,
            in_function: false,
            in_loop: false,
            in_handler: false,
        }
    }

    /// Directly in a function.
    pub fn in_def_suite() -> Around
        ensures { around_of result ≡ spec.in_def_suite }
    {
        Around {
            at_module_level: false,
            in_class: false,
            in_function: true,
            in_loop: false,
            in_handler: false,
        }
    }

    /// In a suite of a statement here that is neither a loop, an `except`, a `def` nor a `class`.
    pub fn in_suite(self) -> Around
        ensures { around_of result ≡ spec.in_suite (around_of self) }
    {
        Around {
            at_module_level: false,
            in_class: false,
            in_function: self.in_function,
            in_loop: self.in_loop,
            in_handler: self.in_handler,
        }
    }

    /// In the suite of a loop here.
    pub fn in_loop_suite(self) -> Around
        ensures { around_of result ≡ spec.in_loop_suite (around_of self) }
    {
        Around {
            at_module_level: false,
            in_class: false,
            in_function: self.in_function,
            in_loop: true,
            in_handler: self.in_handler,
        }
    }

    /// In the suite of an `except` here.
    pub fn in_handler_suite(self) -> Around
        ensures { around_of result ≡ spec.in_handler_suite (around_of self) }
    {
        Around {
            at_module_level: false,
            in_class: false,
            in_function: self.in_function,
            in_loop: self.in_loop,
            in_handler: true,
        }
    }
}
