// The script that runs a statement.
use slon_base::Text;
use slonik_script::NodeLines;

/// What a script says of its nodes.
#[derive(Clone, Copy)]
pub struct Caller<'a> {
    /// The name of its cluster.
    pub cluster: &'a Text,
    /// Its NODE lines.
    pub lines: &'a NodeLines,
}
