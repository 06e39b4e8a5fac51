// Tests of the disk format, of images, of overlays, surveys and packs, each from outside its crate.
#![tactic(auto)]

#[cfg(test)]
mod addresses;
#[cfg(test)]
mod building;
#[cfg(test)]
mod coding;
#[cfg(test)]
mod counts;
#[cfg(test)]
mod drives;
#[cfg(test)]
mod labels;
#[cfg(test)]
mod layouts;
#[cfg(test)]
mod opening;
#[cfg(test)]
mod overlays;
#[cfg(test)]
mod packs;
#[cfg(test)]
mod readers;
#[cfg(test)]
mod refusals;
#[cfg(test)]
mod rivals;
#[cfg(test)]
mod surveys;
