//! Laws of descriptors: which numbers of a table are given.
ghost use Rattle.af_laws.specs.Numbering.{FreeNumbersAreFree, AsManyAsThereAre, GivenInOrder};
ghost use Rattle.af_laws.specs.Numbering.{NoLowerIsPassedOver};

/// The free numbers are those below the limit that are not open, and no others.
pub fn free_numbers_are_free()
    ensures { FreeNumbersAreFree }
{}

/// As many numbers are given as were asked for, or else all that there are.
pub fn as_many_as_there_are()
    ensures { AsManyAsThereAre }
{}

/// Numbers are given in rising order.
pub fn given_in_order()
    ensures { GivenInOrder }
{}

/// No number is given while a lower free one is passed over.
pub fn no_lower_is_passed_over()
    ensures { NoLowerIsPassedOver }
{}
