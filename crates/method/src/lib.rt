// The interface of an EAP method with what it means, and the scripted method.
#![tactic(auto)]

mod interface;
mod row;
mod scripted;
mod subscription;
mod weighing;

pub use interface::Method;
pub use row::{Outcome, Row, Scripted, ScriptedFault};
pub use scripted::identifier_of;
pub use subscription::Subscription;
pub use weighing::{Verdict, Weighing};

#[cfg(test)]
mod tests;
