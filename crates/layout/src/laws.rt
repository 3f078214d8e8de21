//! What stays where a module's tables grow.
ghost use Rattle.layout.specs.Grown.{LayoutsStay};

/// Where the table of types grows, and the structs are the same, the layouts are the same.
pub fn layouts_stay_law()
    ensures { LayoutsStay }
{}
