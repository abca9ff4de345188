ghost use Rattle.tf_stamp.specs.Merged.{StampsAreRead};

/// The stamp of a member and an element is read as this member and this element, and each number
/// behind the members is the stamp of the member and the element that it is read as.
pub fn stamps_are_read()
    ensures { StampsAreRead }
{}
