//! The common definitions: numbers, addresses, times, and the lines of well-known programs, under
//! the names that users of Logstash know.
//!
//! Each group is a text in the form of a file of definitions: a line `NAME=DEF` for each
//! definition, empty lines, and comments that begin with `#`. A comment says which format the
//! definitions after it are for, and where the description of that format is public. The
//! definitions need no others than these and the default definitions of the crate `grok`. They are
//! written for the engine `regex`, so they have no lookaround and no atomic groups.

#![tactic(auto)]

mod applications;
mod cloud;
mod databases;
mod firewalls;
mod formats;
mod java;
mod network;
mod services;
mod sshd;
mod syslog;
mod times;
mod values;
mod web;

use crate::applications::APPLICATIONS;
use crate::cloud::CLOUD;
use crate::databases::DATABASES;
use crate::firewalls::FIREWALLS;
pub use crate::formats::{LineFormat, line_formats};
use crate::java::JAVA;
use crate::network::NETWORK;
use crate::services::SERVICES;
use crate::sshd::SSHD;
use crate::syslog::SYSLOG;
use crate::times::TIMES;
use crate::values::VALUES;
use crate::web::WEB;

/// The groups of definitions. No name is defined twice.
static GROUPS: [&str; 12] = [
    VALUES,
    NETWORK,
    TIMES,
    SYSLOG,
    SSHD,
    WEB,
    CLOUD,
    FIREWALLS,
    SERVICES,
    DATABASES,
    JAVA,
    APPLICATIONS,
];

/// Returns the groups of definitions. No name is defined twice.
pub fn definition_groups() -> &'static [&'static str] {
    &GROUPS
}
