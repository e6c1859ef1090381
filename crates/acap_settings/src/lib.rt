//! What a settings file says: where the server listens, who may log in, and how much it does at once.
#![tactic(auto)]

mod bad_key;
mod fault;
mod judging;
mod settings;
mod taking;

pub use fault::SettingsFault;
pub use settings::Settings;
