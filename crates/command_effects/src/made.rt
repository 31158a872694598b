//! The rows that a command makes.
mod class_definitions;
mod classes;
mod connects;
mod members;
mod operands;
mod permit;
mod profiles;
mod security;
mod users;

pub(crate) use class_definitions::{altered_class_profile, new_class_profile};
pub(crate) use classes::has_clauth;
pub(crate) use members::categories_defined;
pub(crate) use permit::permitted_profile;
pub(crate) use profiles::{altered_data_set, altered_resource, new_data_set, new_resource};
pub(crate) use users::{altered_user, connected_user, new_user, removed_user, without_clauth};
