//! Programs and refusals as text, for tests and measuring: one line for each class, selection, method,
//! instruction, handler, field, entry and sink call.
mod call;
mod class;
mod method;
mod op;
mod program;
mod refusal;
mod shown;

pub use program::text_of;
pub use refusal::text_of_refusal;
