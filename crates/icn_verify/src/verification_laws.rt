// Laws of the shapes and of the first fault.
ghost use Rattle.icn_verify.specs.ShapeLaws.{AreLeast, AreSoundOrBroken, GiveShapes, HaveNoFault, HaveOneFault, HaveOneShape};

/// At most one shape reaches an address that is not refused for it, and the shapes that reach are the least that hold at the start
/// and are carried on.
pub fn least_shapes()
    ensures one_shape { HaveOneShape }
    ensures least { AreLeast }
{}

/// Procedures have at most one first fault, none where they break no rule, and one where they break any. Those that
/// break none have shapes.
pub fn one_fault()
    ensures one_fault { HaveOneFault }
    ensures no_fault { HaveNoFault }
    ensures judged { AreSoundOrBroken }
    ensures shapes { GiveShapes }
{}
