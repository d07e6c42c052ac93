//! Where a source is and as whom it is followed: what arguments say, else an option file of MySQL's clients, else the
//! environment.

use crate::report::failure::{Failure, FailureKind, named, of_system, over_argument, over_file};
use clap::ArgMatches;
use command_line::{option_of, parse_number};
use files::{INPUT, is_there, others_may_read, read_password};
use formats::Shown;
use std::alloc::Global;
use std::env::VarError;
use std::io::Write;
use std::{env, fs};

/// The port of MySQL.
const PORT: u16 = 3306;

const NO_HOST: &str =
    "the source is given by --host H, host=.. in the section [client] of ~/.my.cnf, or MYSQL_HOST";

const NO_USER: &str =
    "the account is given by --user U, or user=.. in the section [client] of ~/.my.cnf";

const NO_PASSWORD: &str =
    "the password is given by --password-file W, password=.. in the section [client] of ~/.my.cnf, or MYSQL_PWD";

/// An option file of MySQL's clients, or none.
#[derive(Drop)]
pub struct Options {
    /// Its name; empty where there is none.
    name: String,
    text: Vec<u8>,
}

/// Where a source is.
#[derive(Drop)]
pub struct Address {
    pub host: String,
    pub port: u16,
}

impl Options {
    /// The file that is named, else that of the home folder, if it is there.
    pub fn of(rt: &HostRuntime, given: &ArgMatches<'_>) -> Result<Options, Failure> {
        match given.get_str("defaults-file") {
            Some(name) => Options::read(rt, format!(in rt.alloc(); "{name}")?),
            None => Options::of_home(rt),
        }
    }

    fn of_home(rt: &HostRuntime) -> Result<Options, Failure> {
        if let Some(home) = variable(rt, "HOME")? {
            let name = format!(in rt.alloc(); "{home}/.my.cnf")?;
            if is_there(rt, name.as_str()).unwrap_or(false) {
                return Options::read(rt, name);
            }
        }
        Ok(Options {
            name: String::new(rt.alloc()),
            text: Vec::new(rt.alloc()),
        })
    }

    fn read(rt: &HostRuntime, name: String) -> Result<Options, Failure> {
        match fs::read(rt, name.as_str()) {
            Ok(text) => Ok(Options { name, text }),
            Err(cause) => Err(of_system(rt.alloc(), name.as_str(), cause)),
        }
    }

    /// What an option stands for here.
    fn value(&self, alloc: Global, option: &str) -> Result<Option<String>, Failure> {
        match option_of(alloc, &self.text, option.as_bytes())? {
            Some(value) => Ok(String::from_utf8(value).ok()),
            None => Ok(None),
        }
    }
}

/// A variable of the environment that has a value.
fn variable(rt: &HostRuntime, name: &str) -> Result<Option<String>, Failure> {
    match env::var(rt, name) {
        Ok(value) if !value.is_empty() => Ok(Some(value)),
        Err(VarError::OutOfMemory) => Err(Failure::Memory),
        _ => Ok(None),
    }
}

/// What an argument, an option file or a variable says, the first of them that says something.
fn setting(
    rt: &HostRuntime,
    given: &ArgMatches<'_>,
    options: &Options,
    option: &str,
    name: &str,
) -> Result<Option<String>, Failure> {
    if let Some(word) = given.get_str(option) {
        return Ok(Some(format!(in rt.alloc(); "{word}")?));
    }
    match options.value(rt.alloc(), option)? {
        Some(value) => Ok(Some(value)),
        None if name.is_empty() => Ok(None),
        None => variable(rt, name),
    }
}

/// The failure of a setting that nothing gives.
fn missing(alloc: Global, option: &str, why: &str) -> Failure {
    named(alloc, FailureKind::Usage, option, &why)
}

impl Address {
    /// The host and the port.
    pub fn of(
        rt: &HostRuntime,
        given: &ArgMatches<'_>,
        options: &Options,
    ) -> Result<Address, Failure> {
        let port = port_of(rt, given, options)?;
        match setting(rt, given, options, "host", "MYSQL_HOST")? {
            Some(host) => Address::with(rt.alloc(), host, port),
            None => Err(missing(rt.alloc(), "--host", NO_HOST)),
        }
    }

    /// A host whose name has no port in it.
    fn with(alloc: Global, host: String, port: u16) -> Result<Address, Failure> {
        match port_in(host.as_str()) {
            Some(inner) => Err(port_apart(alloc, host.as_str(), inner)),
            None => Ok(Address { host, port }),
        }
    }
}

/// The port that is given with a host's name, as of `HOST:PORT`. An IPv6 address has more than one colon.
fn port_in(host: &str) -> Option<&str> {
    let (name, port) = host.split_once(':')?;
    if name.is_empty() || port.is_empty() || !port.bytes().all(|byte| byte.is_ascii_digit()) {
        return None;
    }
    Some(port)
}

/// The failure of a host that is given with its port.
fn port_apart(alloc: Global, host: &str, port: &str) -> Failure {
    match format!(in alloc; "the port is given apart: --port {port}") {
        Ok(why) => named(alloc, FailureKind::Usage, host, &why.as_str()),
        Err(_) => Failure::Memory,
    }
}

/// The port.
fn port_of(rt: &HostRuntime, given: &ArgMatches<'_>, options: &Options) -> Result<u16, Failure> {
    match setting(rt, given, options, "port", "MYSQL_TCP_PORT")? {
        Some(text) => {
            let port = parse_number("--port", text.as_str(), 65_535);
            Ok(over_argument(rt.alloc(), port)? as u16)
        }
        None => Ok(PORT),
    }
}

/// The name of the account.
pub fn user_of(
    rt: &HostRuntime,
    given: &ArgMatches<'_>,
    options: &Options,
) -> Result<String, Failure> {
    match setting(rt, given, options, "user", "")? {
        Some(user) => Ok(user),
        None => Err(missing(rt.alloc(), "--user", NO_USER)),
    }
}

/// The password: the bytes of its file without one line feed at the end, or what the option file or the environment has.
pub fn password_of(
    rt: &HostRuntime,
    given: &ArgMatches<'_>,
    options: &Options,
) -> Result<Vec<u8>, Failure> {
    if let Some(name) = given.get_str("password-file") {
        let mut bytes = over_file(rt.alloc(), name, read_password(rt, name))?;
        if bytes.last() == Some(&b'\n') {
            bytes.pop();
        }
        return Ok(bytes);
    }
    if let Some(password) = option_of(rt.alloc(), &options.text, b"password")? {
        return Ok(password);
    }
    match variable(rt, "MYSQL_PWD")? {
        Some(password) => Ok(password.into_bytes()),
        None => Err(missing(rt.alloc(), "--password-file", NO_PASSWORD)),
    }
}

/// The name of the file that the password is read from; empty where there is none.
pub fn secret_of(
    alloc: Global,
    given: &ArgMatches<'_>,
    options: &Options,
) -> Result<String, Failure> {
    let name = match given.get_str("password-file") {
        Some(INPUT) => String::new(alloc),
        Some(name) => format!(in alloc; "{name}")?,
        None => format!(in alloc; "{}", options.name)?,
    };
    Ok(name)
}

/// Says on standard error if others may read the file that has the password.
pub fn warn<E: Write>(rt: &HostRuntime, name: &str, err: &mut E) {
    if others_may_read(rt, name) {
        let _ = writeln!(
            err,
            "mrep: {}: others may read the password: chmod 600 keeps them out",
            Shown(name)
        );
    }
}
