//! Capabilities (capabilities(7)).

ghost use Rattle.std.specs.Prelude.{◌≡◌, option_map};
ghost use Rattle.aa_profile_data.specs.Capabilities.{capability_name, capability_number};

use crate::table_names::{name_in, number_in};

/// The names of the capabilities, each at the index that is its number.
pub const CAPABILITIES: [&str; 41] = [
    "chown",
    "dac_override",
    "dac_read_search",
    "fowner",
    "fsetid",
    "kill",
    "setgid",
    "setuid",
    "setpcap",
    "linux_immutable",
    "net_bind_service",
    "net_broadcast",
    "net_admin",
    "net_raw",
    "ipc_lock",
    "ipc_owner",
    "sys_module",
    "sys_rawio",
    "sys_chroot",
    "sys_ptrace",
    "sys_pacct",
    "sys_admin",
    "sys_boot",
    "sys_nice",
    "sys_resource",
    "sys_time",
    "sys_tty_config",
    "mknod",
    "lease",
    "audit_write",
    "audit_control",
    "setfcap",
    "mac_override",
    "mac_admin",
    "syslog",
    "wake_alarm",
    "block_suspend",
    "audit_read",
    "perfmon",
    "bpf",
    "checkpoint_restore",
];

/// The number of the capability of a name, or `None` where no capability has it. It takes no memory.
pub fn capability_number(name: &[u8]) -> Option<u8>
    ensures { result ≡ capability_number name.now }
{
    number_in(&CAPABILITIES, name)
}

/// The name of the capability of a number, or `None` where none has it: numbers go from 0 to 40. It takes no memory.
pub fn capability_name(number: u8) -> Option<&'static str>
    ensures { option_map (λ name. name.now) result ≡ capability_name number }
{
    name_in(&CAPABILITIES, number)
}
