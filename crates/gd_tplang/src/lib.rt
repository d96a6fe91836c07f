//! Texts of templates, and what a line of them is answered.
#![tactic(auto)]

mod answers;
mod build;
mod byte;
mod candidates;
mod head;
mod length;
mod line;
mod number;
mod print;
mod said;
mod stop;
mod survey;
mod template;
mod test;
mod text;
mod value;

pub use line::answer_line;
pub use stop::TplFault;
pub use template::template_from;
