//! Tests of contacts, certificates and statics: pairs, surveys and parts worked by hand, texts of certificates, sums of
//! forces, motions and powers, and certificates that are accepted or not.
#![tactic(auto)]

#[cfg(test)]
mod certificate;
#[cfg(test)]
mod checker;
#[cfg(test)]
mod contact;
#[cfg(test)]
mod drawings;
#[cfg(test)]
mod equilibrium;
#[cfg(test)]
mod part;
