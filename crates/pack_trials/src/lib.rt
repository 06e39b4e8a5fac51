// Tests of packs over copies of images and overlays, from outside their crates.
#![tactic(auto)]

#[cfg(test)]
mod building;
#[cfg(test)]
mod formats;
#[cfg(test)]
mod images;
#[cfg(test)]
mod scavenges;
