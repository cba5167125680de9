//! The network, and what stands where in it.
ghost use Rattle.std.specs.Prelude.{◌≡◌, ◌<◌, [], length, Some, None};
ghost use Rattle.duct_definitions.specs.Tree.{section_count, IsTree};
ghost use Rattle.duct_definitions.specs.Network.{IsNetwork, IsFan, AreFans, IsBounded, size_count, size_name, section_name, columns, pair_at, fan_at, return_fan_at, greatest_pressure, cap};

use air_tree::AirTree;
use duct_definitions::{NetFan, Pair};
use duct_units::{List, Name};
use std::marker::Model;

/// A tree of sections, the sizes of each, what each pair of sizes loses and costs, and the fans of both lists.
#[derive(Drop)]
pub struct Network {
    name: Name,
    tree: AirTree,
    names: List<Name>,
    sizes: List<List<Name>>,
    pairs: List<List<Option<Pair>>>,
    fans: List<NetFan>,
    return_fans: List<NetFan>,
}

/// All that a network holds, apart.
#[derive(Drop)]
pub struct NetworkParts {
    /// The name of the project.
    pub name: Name,
    /// The tree of its sections.
    pub tree: AirTree,
    /// The name of each section.
    pub names: List<Name>,
    /// The names of the sizes of each section.
    pub sizes: List<List<Name>>,
    /// The pairs of each section, by its own size and then by its neighbour's.
    pub pairs: List<List<Option<Pair>>>,
    /// The fans on offer.
    pub fans: List<NetFan>,
    /// The return fans on offer.
    pub return_fans: List<NetFan>,
}

impl Model for Network {
    ghost use Rattle.duct_definitions.specs.Network.{Network as NetworkData};

    ghost Value = { NetworkData };

    ghost use Rattle.net_model.specs.NetworkFields.{data_of};
    ghost use Rattle.duct_definitions.specs.Network.{IsNetwork};

    ghost view = { data_of };

    ghost invariant = { λ net. IsNetwork (data_of net) };
}

impl Network {
    ghost use Rattle.net_model.specs.Parts.{parts_of};

    /// The network of a tree, with one entry for each section in each list, and without return fans. The pairs of a
    /// section stand by its own size and then by its neighbour's.
    pub fn new(
        name: Name,
        tree: AirTree,
        names: List<Name>,
        sizes: List<List<Name>>,
        pairs: List<List<Option<Pair>>>,
        fans: List<NetFan>,
    ) -> Network
        requires { IsNetwork (record {
          name = name;
          tree = tree;
          names = names;
          sizes = sizes;
          pairs = pairs;
          fans = fans;
          return_fans = [];
        }) }
        ensures { result ≡ record {
          name = name;
          tree = tree;
          names = names;
          sizes = sizes;
          pairs = pairs;
          fans = fans;
          return_fans = [];
        } }
    {
        let fans = fans.into_vec();
        let no_fans = Vec::new(*fans.allocator());
        Network {
            name,
            tree,
            names,
            sizes,
            pairs,
            fans: List::from_vec(fans),
            return_fans: List::from_vec(no_fans),
        }
    }

    /// The same network with these return fans.
    pub fn with_return_fans(mut self, fans: List<NetFan>) -> Network
        requires { AreFans fans }
        ensures { result ≡ record self { return_fans = fans } }
    {
        self.return_fans = fans;
        self
    }

    /// Its parts, which are moved and not copied, so that another network may be made of them.
    pub fn into_parts(self) -> NetworkParts
        ensures parts { result ≡ parts_of self }
        ensures network { IsNetwork self }
    {
        let Network {
            name,
            tree,
            names,
            sizes,
            pairs,
            fans,
            return_fans,
        } = self;
        NetworkParts {
            name,
            tree,
            names,
            sizes,
            pairs,
            fans,
            return_fans,
        }
    }

    /// The name of the project.
    pub fn name(&self) -> Name
        ensures { result ≡ self.now.name }
    {
        self.name
    }

    /// The tree of its sections.
    pub fn tree(&self) -> &AirTree
        ensures tree { result.now ≡ self.now.tree }
        ensures network { IsNetwork self.now }
    {
        &self.tree
    }

    /// The name of section `s`, from 0 in file order.
    pub fn section_name(&self, s: u32) -> Name
        requires { s < section_count self.now.tree }
        ensures { result ≡ section_name self.now s }
    {
        self.names.as_slice()[s as usize]
    }

    /// How many sizes section `s` can have.
    pub fn size_count(&self, s: u32) -> u32
        requires { s < section_count self.now.tree }
        ensures { result ≡ size_count self.now s }
    {
        let sizes = &self.sizes.as_slice()[s as usize];
        sizes.as_slice().len() as u32
    }

    /// The name of size `k` of section `s`, from 0 in the section's own list.
    pub fn size_name(&self, s: u32, k: u32) -> Name
        requires section { s < section_count self.now.tree }
        requires size { k < size_count self.now s }
        ensures { result ≡ size_name self.now s k }
    {
        let sizes = &self.sizes.as_slice()[s as usize];
        sizes.as_slice()[k as usize]
    }

    /// How many fans are on offer.
    pub fn fan_count(&self) -> u32
        ensures { result ≡ length self.now.fans }
    {
        self.fans.as_slice().len() as u32
    }

    /// Fan `i`, from 0 in file order.
    pub fn fan(&self, i: u32) -> NetFan
        requires { i < length self.now.fans }
        ensures value { result ≡ fan_at self.now i }
        ensures bounds { IsFan result }
    {
        self.fans.as_slice()[i as usize]
    }

    /// How many return fans are on offer.
    pub fn return_fan_count(&self) -> u32
        ensures { result ≡ length self.now.return_fans }
    {
        self.return_fans.as_slice().len() as u32
    }

    /// Return fan `i`, from 0 in file order.
    pub fn return_fan(&self, i: u32) -> NetFan
        requires { i < length self.now.return_fans }
        ensures value { result ≡ return_fan_at self.now i }
        ensures bounds { IsFan result }
    {
        self.return_fans.as_slice()[i as usize]
    }

    /// How many sizes stand beside section `s`: its neighbour's, and 1 at the fan.
    pub fn columns(&self, s: u32) -> u32
        requires { s < section_count self.now.tree }
        ensures { result ≡ columns self.now s }
    {
        match self.tree.neighbour(s) {
            None => 1,
            Some(n) => self.size_count(n),
        }
    }

    /// What section `s` loses and costs in its size `k` beside size `g` of its neighbour, 0 at the fan; None where
    /// the two can't be joined.
    pub fn pair(&self, s: u32, k: u32, g: u32) -> Option<Pair>
        requires section { s < section_count self.now.tree }
        requires size { k < size_count self.now s }
        requires beside { g < columns self.now s }
        ensures value { result ≡ pair_at self.now s k g }
        ensures bounds { IsBounded result }
    {
        let at = k as usize * self.columns(s) as usize + g as usize;
        let pairs = &self.pairs.as_slice()[s as usize];
        pairs.as_slice()[at]
    }

    /// The greatest pressure of all fans, dPa; 0 without fans.
    pub fn cap(&self) -> u64
        ensures { result ≡ cap self.now }
    {
        greatest_pressure(self.fans.as_slice()).max(greatest_pressure(self.return_fans.as_slice()))
    }
}

/// The greatest pressure of these fans, dPa; 0 without fans.
pub fn greatest_pressure(fans: &[NetFan]) -> u64
    ensures { result ≡ greatest_pressure fans.now }
{
    let mut most = 0;
    for fan in fans {
        most = most.max(fan.pressure);
    }
    most
}
