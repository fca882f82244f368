//! What holds of signatures and their order. Each function is a law: its contract says it.
ghost use Rattle.git_machine.specs.SignatureLaws.{EqualSetsAreEqual, NumbersAreMembers, OrderIsTotal, NarrowerIsFirst};

/// Equal sets of one width are equal.
pub fn equal_sets_are_equal()
    ensures { EqualSetsAreEqual }
{}

/// The list of numbers by which the order goes has the numbers of the set, ascending.
pub fn numbers_are_members()
    ensures { NumbersAreMembers }
{}

/// The order of signatures is total, and only equal ones are level.
pub fn order_is_total()
    ensures { OrderIsTotal }
{}

/// Of two signatures with one set of numbers the narrower is first.
pub fn narrower_is_first()
    ensures { NarrowerIsFirst }
{}
