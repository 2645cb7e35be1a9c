//! Tests of `command_script`: scripts with what is answered for them, the commands that are read, and maps.
#![tactic(auto)]

#[cfg(test)]
mod answers;
#[cfg(test)]
mod limits;
#[cfg(test)]
mod maps;
#[cfg(test)]
mod shown;
#[cfg(test)]
mod values;
