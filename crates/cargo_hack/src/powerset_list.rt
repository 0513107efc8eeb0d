//! The command list of a feature map's powerset.

pub use hack_powerset_list::{
    Counted, CountedReader, Ending, ListFault, Sink, Source, call_powerset_list, command,
    powerset_list,
};
