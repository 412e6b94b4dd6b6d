//! Each figure is one number: the definitions leave no choice.
ghost use Rattle.figures.specs.Unique.{PortsUnique, TablesUnique};

/// No port has two delays or two needs, nor a figure and none.
pub fn port_figures_are_unique()
    ensures { PortsUnique }
{}

/// No table has two delays for a stream, nor two needs for a line.
pub fn table_figures_are_unique<K>()
    ensures { TablesUnique K }
{}
